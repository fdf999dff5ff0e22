// Calls of `writer::write`, each compared in full with what it must answer and leave. The lent bytes
// have known contents at entry, and the lists may be longer than what is lent of them.
use numbers::{Refused, told};
use testkit::files::{is_stamped, stamp};
use testkit::sample::file_length;
use testkit::words::{first, lent};

// What `stamp` puts into the bytes before a call.
const TAG: u8 = 9;

// How much of each list is lent.
#[derive(Clone, Copy)]
pub struct Lengths {
    pub offsets: usize,
    pub targets: usize,
    pub file: usize,
}

// The lists at their need.
pub fn needs(vertices: u16, edges: u16) -> Lengths {
    Lengths {
        offsets: usize::from(vertices) + 1,
        targets: usize::from(edges),
        file: file_length(vertices, edges),
    }
}

// Writes with the first places of each list.
fn write_at(
    offsets: &[u16],
    targets: &[u16],
    file: &mut [u8],
    lengths: Lengths,
) -> Result<(), Refused> {
    writer::write(
        first(offsets, lengths.offsets),
        first(targets, lengths.targets),
        lent(file, lengths.file),
    )
}

// Whether the rows are turned down with this number and no byte is changed.
pub fn refuses(
    offsets: &[u16],
    targets: &[u16],
    file: &mut [u8],
    lengths: Lengths,
    number: usize,
) -> bool {
    stamp(file, TAG);
    let answer = write_at(offsets, targets, file, lengths);
    (told(&answer) == number) & is_stamped(file, 0, TAG)
}

// Whether the rows are written as the bytes of `want`, and the bytes past them are as they were.
pub fn writes(
    offsets: &[u16],
    targets: &[u16],
    file: &mut [u8],
    lengths: Lengths,
    want: &[u8],
) -> bool {
    stamp(file, TAG);
    let answer = write_at(offsets, targets, file, lengths);
    answer.is_ok() & file.starts_with(want) & is_stamped(file, want.len(), TAG)
}

// `writes` where the number is 0, else `refuses`.
pub fn answers(
    offsets: &[u16],
    targets: &[u16],
    file: &mut [u8],
    lengths: Lengths,
    number: usize,
    want: &[u8],
) -> bool {
    if number == 0 {
        writes(offsets, targets, file, lengths, want)
    } else {
        refuses(offsets, targets, file, lengths, number)
    }
}
