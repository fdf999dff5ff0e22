// Rows that the writer must turn down. Each case changes one offset and one target of good rows,
// cuts the lists to given lengths, and sees that no byte is changed.
use crate::writing::{Lengths, refuses, writes};
use std::io;
use testkit::files::{first, put_words};
use testkit::group::{Tally, all};
use testkit::words::put;

// Good rows: 4 vertices, 4 edges, a file of 28 bytes. A place past the need holds 4 or 0.
const OFFSETS: [u16; 8] = [0, 2, 3, 4, 4, 4, 0, 0];

const TARGETS: [u16; 8] = [1, 2, 3, 3, 0, 0, 0, 0];

// The words of the file that is written, and of the one with a vertex more that has no edge.
const FOUR: [u16; 14] = [4, 4, 1, 3, 4, 0, 1, 2, 2, 0, 3, 0, 3, 0];

const FIVE: [u16; 15] = [5, 4, 1, 3, 4, 0, 0, 1, 2, 2, 0, 3, 0, 3, 0];

// The offsets' length, a place and its value; the targets' length, a place and its value; the
// file's length; the number. Place 7 is no change.
#[derive(Clone, Copy)]
struct Case((usize, u16, u16), (usize, u16, u16), usize, usize);

const CASES: [Case; 28] = [
    // offsets empty, or one alone
    Case((0, 7, 0), (4, 7, 0), 28, 11),
    Case((0, 7, 0), (0, 7, 0), 28, 11),
    Case((1, 7, 0), (4, 7, 0), 28, 11),
    Case((1, 7, 0), (0, 7, 0), 28, 11),
    // not 0 first
    Case((5, 0, 1), (4, 7, 0), 28, 11),
    Case((5, 0, 2), (4, 7, 0), 28, 11),
    Case((5, 0, 65535), (4, 7, 0), 28, 11),
    // falling: from the second, in the middle, at the end, after the end
    Case((5, 1, 4), (4, 7, 0), 28, 11),
    Case((5, 2, 1), (4, 7, 0), 28, 11),
    Case((5, 3, 5), (4, 7, 0), 28, 11),
    Case((5, 1, 65535), (4, 7, 0), 28, 11),
    Case((7, 7, 0), (4, 7, 0), 64, 11),
    // not m last
    Case((5, 4, 5), (4, 7, 0), 28, 11),
    Case((5, 4, 65535), (4, 7, 0), 28, 11),
    Case((5, 4, 3), (4, 7, 0), 28, 11),
    Case((3, 7, 0), (4, 7, 0), 28, 11),
    Case((5, 7, 0), (3, 7, 0), 28, 11),
    Case((5, 7, 0), (5, 7, 0), 64, 11),
    Case((5, 7, 0), (0, 7, 0), 28, 11),
    // a target of n or more: the first, the last, a large one; with n smaller
    Case((5, 7, 0), (4, 0, 4), 28, 11),
    Case((5, 7, 0), (4, 3, 4), 28, 11),
    Case((5, 7, 0), (4, 2, 65535), 28, 11),
    Case((4, 7, 0), (4, 7, 0), 28, 11),
    // 11 before 20
    Case((5, 7, 0), (4, 3, 4), 27, 11),
    Case((0, 7, 0), (0, 7, 0), 0, 11),
    // 20
    Case((5, 7, 0), (4, 7, 0), 27, 20),
    Case((5, 7, 0), (4, 7, 0), 4, 20),
    Case((5, 7, 0), (4, 7, 0), 0, 20),
];

fn is_right(case: &Case) -> bool {
    let Case((offsets_length, place, offset), (targets_length, edge, target), length, number) =
        *case;
    let lent = Lengths {
        offsets: offsets_length,
        targets: targets_length,
        file: length,
    };
    let mut offsets = OFFSETS;
    let mut targets = TARGETS;
    let mut file = [0u8; 64];
    put(&mut offsets, place, offset);
    put(&mut targets, edge, target);
    refuses(&offsets, &targets, &mut file, lent, number)
}

fn table() -> Tally {
    all(CASES.iter(), is_right)
}

// Whether the rows are written as these words, into just as many bytes or more.
fn is_written(offsets: &[u16], targets: &[u16], words: &[u16]) -> bool {
    let mut want = [0u8; 64];
    let mut file = [0u8; 64];
    put_words(&mut want, words);
    let whole = first(&want, words.len().wrapping_mul(2));
    let exact = Lengths {
        offsets: offsets.len(),
        targets: targets.len(),
        file: whole.len(),
    };
    let longer = Lengths { file: 64, ..exact };
    let fits = writes(offsets, targets, &mut file, exact, whole);
    fits & writes(offsets, targets, &mut file, longer, whole)
}

// Files by hand: the good rows, the same with a fifth vertex, and rows with no edge.
fn accepted() -> Tally {
    let four = is_written(&OFFSETS[..5], &TARGETS[..4], &FOUR);
    let five = is_written(&OFFSETS[..6], &TARGETS[..4], &FIVE);
    let none = is_written(&[0, 0, 0, 0], &[], &[3, 0, 0, 0, 0]);
    Tally::new().with(four).with(five).with(none)
}

pub fn run(rt: &impl Print) -> io::Result<()> {
    table().print(rt, "writer's refusals")?;
    accepted().print(rt, "written by hand")
}
