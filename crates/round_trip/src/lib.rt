// Rows written and read back: the round trip of the two calls' definitions, said once more of the
// results that the calls themselves hand back. The theorem is `returned` in proofs/Facts.antt.
#![tactic(auto)]

ghost use Rattle.std.specs.Prelude.{◌≡◌};
ghost use Rattle.numbers.specs.Told.{told};
ghost use Rattle.round_trip.specs.Trip.{trip_exit, outcome_of_trip};

use numbers::Refused;

// Writes the rows and reads back what was written: the writer's refusal, or the reader's.
pub fn write_and_read(
    offsets: &[u16],
    targets: &[u16],
    file: &mut [u8],
    offsets_read: &mut [u16],
    targets_read: &mut [u16],
    marks: &mut [u16],
) -> Result<(), Refused>
    ensures { trip_exit (told result) file.new offsets_read.new targets_read.new marks.new
        ≡ outcome_of_trip offsets.now targets.now file.old
        offsets_read.old targets_read.old marks.old }
{
    writer::write(offsets, targets, file)?;
    let n = offsets.len() - 1;
    let end = 2 * (2 + n + 2 * targets.len());
    graph::read(&file[..end], offsets_read, targets_read, marks)?;
    Ok(())
}
