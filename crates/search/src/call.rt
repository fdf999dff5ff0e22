// The outside call: the tests on the input in document 01's order, the rows, the run, and the node
// lists cleared.
ghost use Rattle.std.specs.Prelude.{◌≡◌, ◌+◌, ◌≤◌, take, IfOk};
ghost use Rattle.numbers.specs.Numbers.{max_workers};
ghost use Rattle.graph.specs.Answers.{answer_of as graph·answer_of};
ghost use Rattle.graph.specs.Graph.{rows_of};
ghost use Rattle.model.specs.Call.{node_places, lengths_short, outcome_of_search};
ghost use Rattle.model.specs.Play as model;
ghost use Rattle.engine.specs.Runs.{answer_in};
ghost use Rattle.search.specs.Answers.{answer_of};
ghost use Rattle.search.specs.Played.{Playable, PlayedOut};
ghost use Rattle.search.specs.Input.{lengths_in, early_answer};
ghost use Rattle.search.specs.Promise.{lent_lists, search_exit, Kept};

use crate::Lengths;
use engine::Answer;
use engine::run::run;
use graph::{Survey, steps};
use numbers::Refused;

// 20: whether a lent list is shorter than its need.
fn lengths_short(survey: &Survey<'_>, workers: usize, lengths: Lengths) -> bool
    requires { workers ≤ max_workers }
    ensures { result ≡ lengths_short survey.now.vertices survey.now.edges workers (lengths_in lengths) }
{
    let n = survey.vertices;
    let places = workers * n + 1;
    if steps::rows_short(
        n,
        survey.edges,
        lengths.offsets,
        lengths.targets,
        lengths.marks,
    ) {
        return true;
    }
    if lengths.distances < n || lengths.parents < n {
        return true;
    }
    if lengths.histogram < n {
        return true;
    }
    if lengths.left < places || lengths.right < places {
        return true;
    }
    lengths.values < places
}

// 1 (under 4), 2, 1 (length), 4, 3, 7, 8, 9, 20; what passes them is a survey of this file.
fn judge<'a>(
    file: &'a [u8],
    source: usize,
    workers: usize,
    schedule: &[u8],
    lengths: Lengths,
) -> Result<Survey<'a>, Refused>
    ensures value { graph·answer_of result ≡ early_answer file.now source workers schedule.now (lengths_in lengths) }
    ensures same_file { IfOk result (λ survey. survey.file.now ≡ file.now) }
{
    let survey = steps::examine(file)?;
    if survey.vertices <= source {
        return Err(Refused::BadSource);
    }
    schedule::check_schedule(schedule, workers)?;
    if lengths_short(&survey, workers, lengths) {
        return Err(Refused::ShortList);
    }
    Ok(survey)
}

// The number of an answer.
pub fn number(answer: &Result<Answer, Refused>) -> usize
    ensures { result ≡ (answer_of answer.now).number }
{
    match answer {
        Ok(run) => run.ending.number(),
        Err(refused) => refused.number(),
    }
}

// Plays the schedule on the parts of the lists that it needs, then clears the nodes' parts. The cast of
// the source is proved to fit: `try_from` and `unwrap` ask for the same.
fn play(
    n: usize,
    m: usize,
    source: usize,
    workers: usize,
    schedule: &[u8],
    offsets: &[u16],
    targets: &[u16],
    distances: &mut [u16],
    parents: &mut [u16],
    histogram: &mut [u16],
    left: &mut [u16],
    right: &mut [u16],
    values: &mut [u16],
) -> Answer
    requires { Playable n m source workers schedule.now offsets.now targets.now distances.old parents.old
        histogram.old left.old right.old values.old }
    ensures { PlayedOut
        (model.play (rows_of (take (n + 1) offsets.now) (take m targets.now))
        source workers schedule.now)
        (node_places n workers)
        distances.old parents.old histogram.old
        left.old right.old values.old
        distances.new parents.new histogram.new
        left.new right.new values.new
        (answer_in result) }
{
    let places = workers * n + 1;
    let offset_count = n + 1;
    let answer = run(
        source as u16,
        workers,
        schedule,
        &offsets[..offset_count],
        &targets[..m],
        &mut distances[..n],
        &mut parents[..n],
        &mut histogram[..n],
        &mut left[..places],
        &mut right[..places],
        &mut values[..places],
    );
    bag::sweep(left, right, values, places);
    answer
}

// The search. Offsets, targets and marks are as the reader's; distances and parents get the labels,
// histogram how many vertices stand at each distance; left, right and values are working room. The lists
// are no struct: lent in one, each would need a clause more, that it is the same list and as long.
pub fn search(
    file: &[u8],
    source: usize,
    workers: usize,
    schedule: &[u8],
    offsets: &mut [u16],
    targets: &mut [u16],
    marks: &mut [u16],
    distances: &mut [u16],
    parents: &mut [u16],
    histogram: &mut [u16],
    left: &mut [u16],
    right: &mut [u16],
    values: &mut [u16],
) -> Result<Answer, Refused>
    ensures values_after { search_exit (answer_of result) (lent_lists offsets.new targets.new marks.new distances.new
        parents.new histogram.new left.new right.new values.new)
        ≡ outcome_of_search file.now source workers schedule.now
        (lent_lists offsets.old targets.old marks.old distances.old
        parents.old histogram.old left.old right.old values.old) }
    ensures kept { Kept file.now source workers schedule.now
        (lent_lists offsets.old targets.old marks.old distances.old
        parents.old histogram.old left.old right.old values.old)
        (answer_of result)
        (lent_lists offsets.new targets.new marks.new distances.new
        parents.new histogram.new left.new right.new values.new) }
{
    let lengths = Lengths {
        offsets: offsets.len(),
        targets: targets.len(),
        marks: marks.len(),
        distances: distances.len(),
        parents: parents.len(),
        histogram: histogram.len(),
        left: left.len(),
        right: right.len(),
        values: values.len(),
    };
    let survey = judge(file, source, workers, schedule, lengths)?;
    survey.unchain(offsets, targets, marks)?;
    let n = survey.vertices;
    let m = survey.edges;
    Ok(play(
        n, m, source, workers, schedule, offsets, targets, distances, parents, histogram, left,
        right, values,
    ))
}
