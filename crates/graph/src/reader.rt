// The reader: from the bytes of a file to its rows.
ghost use Rattle.std.specs.Prelude.{◌≡◌};
ghost use Rattle.graph.specs.Answers.{read_answer_of};
ghost use Rattle.graph.specs.Read.{outcome_of_read, read_exit};

use crate::Size;
use crate::steps::{examine, rows_short};
use numbers::Refused;

// Reads the file into rows: offsets and targets. Marks is working room.
pub fn read(
    file: &[u8],
    offsets: &mut [u16],
    targets: &mut [u16],
    marks: &mut [u16],
) -> Result<Size, Refused>
    ensures { read_exit (read_answer_of result) offsets.new targets.new marks.new
        ≡ outcome_of_read file.now offsets.old targets.old marks.old }
{
    let survey = examine(file)?;
    let n = survey.vertices;
    let m = survey.edges;
    if rows_short(n, m, offsets.len(), targets.len(), marks.len()) {
        return Err(Refused::ShortList);
    }
    survey.unchain(offsets, targets, marks)?;
    Ok(Size {
        vertices: n,
        edges: m,
    })
}
