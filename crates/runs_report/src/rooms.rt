// Output lists of every length: one that is too short is left as it is, with the answer 0; what lies
// behind the text of a longer one is kept.
use crate::answer_text::read;
use crate::inputs::{put_file_word, put_head};
use crate::replies::BLANK;
use testkit::files::{first, is_filled, lent};
use testkit::group::{Tally, all};

// The lengths.
const ROOM_PLACES: [usize; 11] = [0, 1, 8, 83, 84, 8191, 8274, 8275, 8276, 8277, 8300];

// How many places any output may need.
const OUTPUT_NEED: usize = 8276;

// An input's vertices, its length, the number, and the length of its output.
const INPUT_TABLE: [[u16; 4]; 3] = [
    // empty: `1 0 0 0`
    [0, 0, 1, 8],
    // n 1 and no schedule: `21 0 0 0` and `0 0 0`
    [1, 12, 21, 15],
    // n 512: `21 0 0 0`, `0 0 0`, and `- -` behind each of the other vertices
    [512, 1034, 21, 3995],
];

// Whether the first bytes of the output are the text that is expected, and the rest is kept. `count` is
// what the call answered, and is compared.
fn is_written(output: &[u8], count: usize, row: [u16; 4]) -> bool {
    let [vertices, _, number, length] = row;
    let mut distances = [0u16; 512];
    let mut parents = [0u16; 512];
    let text = read(first(output, count), vertices, &mut distances, &mut parents).is_some_and(
        |seen| seen.number == usize::from(number),
    );
    text & (count == usize::from(length)) & is_filled(output, count, BLANK)
}

fn is_right(row: [u16; 4], places: usize) -> bool {
    let [vertices, length, ..] = row;
    let mut input = [0u8; 1034];
    let mut output = [BLANK; 8300];
    put_head(&mut input, 0, 1, 0);
    put_file_word(&mut input, 0, 0, vertices);
    let cut = first(&input, usize::from(length));
    let count = report::respond(cut, lent(&mut output, places));
    if places < OUTPUT_NEED {
        return (count == 0) & is_filled(&output, 0, BLANK);
    }
    is_written(&output, count, row)
}

// Every input with every length.
pub fn run() -> Tally {
    let mut tally = Tally::new();
    for row in INPUT_TABLE {
        tally = tally.and(all(ROOM_PLACES.iter(), |places| is_right(row, *places)));
    }
    tally
}
