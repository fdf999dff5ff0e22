// Calls of `graph::read`, each compared in full with what it must answer and leave. The lent lists
// have known contents at entry, and may be longer than what is lent of them.
use crate::files;
use crate::sample::file_length;
use crate::words::{agree, first, holds, is_stamped, lent, stamp};
use graph::Size;
use numbers::Refused;

// What `stamp` puts into the three lists before a call.
const OFFSETS_TAG: u16 = 7777;

const TARGETS_TAG: u16 = 12345;

const MARKS_TAG: u16 = 99;

// How much of each list is lent.
#[derive(Clone, Copy)]
pub struct Lengths {
    pub file: usize,
    pub offsets: usize,
    pub targets: usize,
    pub marks: usize,
}

// The lists at their need.
pub fn needs(vertices: u16, edges: u16) -> Lengths {
    Lengths {
        file: file_length(vertices, edges),
        offsets: usize::from(vertices) + 1,
        targets: usize::from(edges),
        marks: usize::from(edges),
    }
}

// Gives the three lists known contents.
fn prepare(offsets: &mut [u16], targets: &mut [u16], marks: &mut [u16]) {
    stamp(offsets, OFFSETS_TAG);
    stamp(targets, TARGETS_TAG);
    stamp(marks, MARKS_TAG);
}

// Reads with the first places of each list.
fn read_at(
    file: &[u8],
    offsets: &mut [u16],
    targets: &mut [u16],
    marks: &mut [u16],
    lengths: Lengths,
) -> Result<Size, Refused> {
    graph::read(
        first(file, lengths.file),
        lent(offsets, lengths.offsets),
        lent(targets, lengths.targets),
        lent(marks, lengths.marks),
    )
}

// How many marks are 0 after a refusal: with 5 and 6 the first m.
pub fn cleared(number: usize, edges: u16) -> usize {
    match number {
        5 | 6 => usize::from(edges),
        _ => 0,
    }
}

// Whether a refusal left the lists as they were, but for the first `zeros` marks.
fn are_kept(offsets: &[u16], targets: &[u16], marks: &[u16], zeros: usize) -> bool {
    let rows = is_stamped(offsets, 0, OFFSETS_TAG) & is_stamped(targets, 0, TARGETS_TAG);
    rows & holds(marks, zeros, 0) & is_stamped(marks, zeros, MARKS_TAG)
}

// Whether the first places are n + 1 offsets and m targets as these, and m zeros.
fn are_rows(
    offsets: &[u16],
    targets: &[u16],
    marks: &[u16],
    rows: &[u16],
    row_targets: &[u16],
    n: usize,
    m: usize,
) -> bool {
    let places = n.wrapping_add(1);
    agree(offsets, rows, places) & agree(targets, row_targets, m) & holds(marks, m, 0)
}

// Whether the places past the need are as they were.
fn is_rest_kept(offsets: &[u16], targets: &[u16], marks: &[u16], n: usize, m: usize) -> bool {
    let places = n.wrapping_add(1);
    let rows = is_stamped(offsets, places, OFFSETS_TAG) & is_stamped(targets, m, TARGETS_TAG);
    rows & is_stamped(marks, m, MARKS_TAG)
}

// Whether the file is turned down with this number, and nothing is changed but, with 5 and 6, the first m
// marks.
pub fn refuses(
    file: &[u8],
    offsets: &mut [u16],
    targets: &mut [u16],
    marks: &mut [u16],
    lengths: Lengths,
    number: usize,
) -> bool {
    let zeros = cleared(number, files::word(file, 1));
    prepare(offsets, targets, marks);
    let answer = read_at(file, offsets, targets, marks, lengths);
    answer.is_err_and(|refused| refused.number() == number)
        & are_kept(offsets, targets, marks, zeros)
}

// Whether the file is read, gives these rows, clears the first m marks, and leaves what lies past
// the need as it was.
pub fn reads(
    file: &[u8],
    offsets: &mut [u16],
    targets: &mut [u16],
    marks: &mut [u16],
    lengths: Lengths,
    rows: &[u16],
    row_targets: &[u16],
    vertices: u16,
    edges: u16,
) -> bool {
    let n = usize::from(vertices);
    let m = usize::from(edges);
    prepare(offsets, targets, marks);
    let answer = read_at(file, offsets, targets, marks, lengths);
    let written = are_rows(offsets, targets, marks, rows, row_targets, n, m);
    let sized = answer.is_ok_and(|size| (size.vertices == n) & (size.edges == m));
    sized & written & is_rest_kept(offsets, targets, marks, n, m)
}

// `reads` where the number is 0, else `refuses`.
pub fn answers(
    file: &[u8],
    offsets: &mut [u16],
    targets: &mut [u16],
    marks: &mut [u16],
    lengths: Lengths,
    number: usize,
    rows: &[u16],
    row_targets: &[u16],
    vertices: u16,
    edges: u16,
) -> bool {
    if number == 0 {
        reads(
            file,
            offsets,
            targets,
            marks,
            lengths,
            rows,
            row_targets,
            vertices,
            edges,
        )
    } else {
        refuses(file, offsets, targets, marks, lengths, number)
    }
}
