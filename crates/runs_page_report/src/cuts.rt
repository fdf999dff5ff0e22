// Every prefix of case A's input, and the whole of it with bytes behind it; the same with a wrong
// result, and with a count or an n that is refused.
use crate::inputs::{put_file_word, put_square};
use crate::replies::{Wanted, answers};
use checkkit::tables;
use testkit::files::{first, put_word, stamp};
use testkit::group::{Tally, all};

// Each input is cut at lengths 0 to 99.
const LENGTHS: u16 = 100;

// Where the count is whole, where n and m are, and where the file ends.
const HEAD: u16 = 4;

const SIZES_END: u16 = 24;

const WHOLE: u16 = 48;

// The inputs: case A, a wrong result, too many distances, no vertex.
#[derive(Clone, Copy, PartialEq)]
enum Input {
    Square,
    Wrong,
    LargeCount,
    NoVertex,
}

const INPUTS: [Input; 4] = [
    Input::Square,
    Input::Wrong,
    Input::LargeCount,
    Input::NoVertex,
];

// The number of the program's order for the first bytes of an input.
fn expected(kind: Input, length: u16) -> u16 {
    match kind {
        _ if length < HEAD => 1,
        Input::LargeCount => 20,
        _ if length < SIZES_END => 1,
        Input::NoVertex => 2,
        _ if length != WHOLE => 1,
        Input::Wrong => 10,
        Input::Square => 0,
    }
}

// Stores the words that an input is refused for.
fn spoil(input: &mut [u8], kind: Input) {
    let count = if kind == Input::LargeCount { 4097 } else { 4 };
    let vertices = if kind == Input::NoVertex { 0 } else { 4 };
    put_word(input, 1, count);
    put_file_word(input, 4, 0, vertices);
}

// Other bytes stand behind case A's input.
fn is_right(kind: Input, length: u16) -> bool {
    let mut input = [0u8; 100];
    let mut distances = tables::DISTANCES;
    let mut parents = tables::PARENTS;
    let labels = if kind == Input::Wrong {
        0
    } else {
        tables::GOOD
    };
    tables::put_labels(labels, &mut distances, &mut parents);
    stamp(&mut input, 3);
    put_square(&mut input, 0, &distances, &parents);
    spoil(&mut input, kind);
    let wanted = Wanted {
        number: expected(kind, length),
        vertices: 4,
        distances: &distances,
        parents: &parents,
    };
    answers(first(&input, usize::from(length)), wanted)
}

pub fn run() -> Tally {
    let mut tally = Tally::new();
    for kind in INPUTS {
        tally = tally.and(all(0..LENGTHS, |length| is_right(kind, length)));
    }
    tally
}
