// Output lists of every length: one that is too short for some output is left as it is, with the answer
// 0; what lies behind the text of a longer one is kept.
use crate::inputs::put_square;
use crate::replies::{Wanted, is_reply};
use checkkit::tables;
use pagekit::BLANK;
use testkit::files::{first, is_filled, lent};
use testkit::group::Tally;

// The lengths.
const ROOM_PLACES: [usize; 9] = [0, 1, 3, 20, 105, 87737, 87738, 87739, 87743];

// How many places any output may need.
const OUTPUT_NEED: usize = 87738;

// Whether the first bytes of case A's input, with the wanted labels, are answered so.
fn is_answered(places: usize, length: usize, wanted: Wanted) -> bool {
    let mut input = [0u8; 48];
    let mut output = [BLANK; 87743];
    put_square(&mut input, 0, wanted.distances, wanted.parents);
    let cut = first(&input, length);
    let count = page_report::respond(cut, lent(&mut output, places));
    if places < OUTPUT_NEED {
        return (count == 0) & is_filled(&output, 0, BLANK);
    }
    is_reply(&output, count, wanted)
}

// Case A, the same with a wrong result, and an empty input, each with every length.
pub fn run() -> Tally {
    let mut distances = tables::DISTANCES;
    let mut parents = tables::PARENTS;
    tables::put_labels(0, &mut distances, &mut parents);
    let right = Wanted {
        number: 0,
        vertices: 4,
        distances: &tables::DISTANCES,
        parents: &tables::PARENTS,
    };
    let wrong = Wanted {
        number: 10,
        distances: &distances,
        parents: &parents,
        ..right
    };
    let empty = Wanted { number: 1, ..right };
    let mut tally = Tally::new();
    for places in ROOM_PLACES {
        tally = tally
            .with(is_answered(places, 48, right))
            .with(is_answered(places, 48, wrong))
            .with(is_answered(places, 0, empty));
    }
    tally
}
