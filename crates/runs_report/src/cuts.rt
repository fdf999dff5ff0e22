// Every prefix of case A's input, and the whole of it with bytes behind it; the same with a sheet
// length, an n or an m that is refused.
use crate::inputs::{put_file_word, put_square};
use crate::replies::answers;
use testkit::files::{first, put_word, stamp};
use testkit::group::{Tally, all};

// Each input is cut at lengths 0 to 99.
const LENGTHS: u16 = 100;

const SQUARE_EVENTS: u16 = 25;

// Where the sheet length is whole, where n and m are, and where the file ends.
const HEAD: u16 = 6;

const SIZES_END: u16 = 35;

const WHOLE: u16 = 59;

// The inputs: case A, a sheet length that is too large, no vertex, too many vertices for the
// program, too many edges for any.
#[derive(Clone, Copy, PartialEq)]
enum Input {
    Square,
    LongSchedule,
    NoVertex,
    ManyVertices,
    ManyEdges,
}

const INPUTS: [Input; 5] = [
    Input::Square,
    Input::LongSchedule,
    Input::NoVertex,
    Input::ManyVertices,
    Input::ManyEdges,
];

// The number of the program's order for the first bytes of an input.
fn expected(kind: Input, length: u16) -> u16 {
    match kind {
        _ if length < HEAD => 1,
        Input::LongSchedule => 20,
        _ if length < SIZES_END => 1,
        Input::NoVertex | Input::ManyEdges => 2,
        Input::ManyVertices => 20,
        Input::Square => u16::from(length != WHOLE),
    }
}

// n of an input.
fn vertices(kind: Input) -> u16 {
    match kind {
        Input::NoVertex => 0,
        Input::ManyVertices => 513,
        _ => 4,
    }
}

// Stores the words that an input is refused for.
fn spoil(input: &mut [u8], kind: Input) {
    let events = if kind == Input::LongSchedule {
        8193
    } else {
        SQUARE_EVENTS
    };
    let edges = if kind == Input::ManyEdges { 32769 } else { 4 };
    put_word(input, 2, events);
    put_file_word(input, SQUARE_EVENTS, 0, vertices(kind));
    put_file_word(input, SQUARE_EVENTS, 1, edges);
}

// Other bytes stand behind case A's input.
fn is_right(kind: Input, length: u16) -> bool {
    let mut input = [0u8; 100];
    stamp(&mut input, 3);
    put_square(&mut input, SQUARE_EVENTS);
    spoil(&mut input, kind);
    let cut = first(&input, usize::from(length));
    answers(cut, 4, expected(kind, length))
}

pub fn run() -> Tally {
    let mut tally = Tally::new();
    for kind in INPUTS {
        tally = tally.and(all(0..LENGTHS, |length| is_right(kind, length)));
    }
    tally
}
