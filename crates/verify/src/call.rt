// The outside call: the tests on the input in document 01's order, the rows, then the certificate.
ghost use Rattle.std.specs.Prelude.{◌≡◌, ◌+◌, take, IfOk};
ghost use Rattle.numbers.specs.Told.{told};
ghost use Rattle.graph.specs.Answers.{answer_of};
ghost use Rattle.graph.specs.Graph.{rows_of};
ghost use Rattle.model.specs.Words.{labels_in};
ghost use Rattle.verify.specs.Certificate.{result_wrong};
ghost use Rattle.verify.specs.Check.{check_short, outcome_of_check};
ghost use Rattle.verify.specs.Promise.{lent_lists, check_exit, Judged};
ghost use Rattle.verify.specs.Steps.{lengths_in, early_answer, CheckableIn};

use crate::Lengths;
use crate::certificate::Claim;
use graph::{Survey, steps};
use numbers::Refused;

// 20: whether a lent list is shorter than its need.
#[tactic(auto, unfolding(crate::specs::Check::check_short))]
fn lengths_short(survey: &Survey<'_>, lengths: Lengths) -> bool
    ensures { result ≡ check_short survey.now.vertices survey.now.edges (lengths_in lengths) }
{
    let n = survey.vertices;
    steps::rows_short(
        n,
        survey.edges,
        lengths.offsets,
        lengths.targets,
        lengths.marks,
    ) || lengths.distances < n
        || lengths.parents < n
}

// 1 (under 4), 2, 1 (length), 4, 3, 7, 20; what passes them is a survey of this file.
fn judge(file: &[u8], source: usize, lengths: Lengths) -> Result<Survey<'_>, Refused>
    ensures value { answer_of result ≡ early_answer file.now source (lengths_in lengths) }
    ensures same_file { IfOk result (λ survey. survey.file.now ≡ file.now) }
{
    let survey = steps::examine(file)?;
    if survey.vertices <= source {
        return Err(Refused::BadSource);
    }
    if lengths_short(&survey, lengths) {
        return Err(Refused::ShortList);
    }
    Ok(survey)
}

// Whether the result in the first places of these lists is wrong.
fn result_wrong_in(
    n: usize,
    m: usize,
    source: usize,
    offsets: &[u16],
    targets: &[u16],
    distances: &[u16],
    parents: &[u16],
) -> bool
    requires { CheckableIn n m source offsets.now targets.now distances.now parents.now }
    ensures { result ≡ result_wrong (rows_of (take (n + 1) offsets.now) (take m targets.now)) source
        (labels_in n distances.now parents.now) }
{
    let offset_count = n + 1;
    let claim = Claim {
        source,
        offsets: &offsets[..offset_count],
        targets: &targets[..m],
        distances: &distances[..n],
        parents: &parents[..n],
    };
    claim.result_wrong()
}

// The checker. Offsets, targets and marks are as the reader's; distances and parents are read alone,
// and longer lists count by their first n places.
pub fn check(
    file: &[u8],
    source: usize,
    distances: &[u16],
    parents: &[u16],
    offsets: &mut [u16],
    targets: &mut [u16],
    marks: &mut [u16],
) -> Result<(), Refused>
    ensures marks_after { check_exit (told result) (lent_lists offsets.new targets.new marks.new)
        ≡ outcome_of_check file.now source distances.now parents.now
        (lent_lists offsets.old targets.old marks.old) }
    ensures judged { Judged file.now source distances.now parents.now
        (lent_lists offsets.old targets.old marks.old)
        (told result) }
{
    let lengths = Lengths {
        distances: distances.len(),
        parents: parents.len(),
        offsets: offsets.len(),
        targets: targets.len(),
        marks: marks.len(),
    };
    let survey = judge(file, source, lengths)?;
    survey.unchain(offsets, targets, marks)?;
    let n = survey.vertices;
    if result_wrong_in(
        n,
        survey.edges,
        source,
        offsets,
        targets,
        distances,
        parents,
    ) {
        return Err(Refused::BadResult);
    }
    Ok(())
}
