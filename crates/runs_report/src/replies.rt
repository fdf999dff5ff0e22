// Calls of `respond`, each with its output read back and compared.
use crate::answer_text;
use searchkit::requests::Seen;
use testkit::files::{first, is_filled};

// What the output list holds before a call, at every place. No output has this byte.
pub const BLANK: u8 = 255;

// What the reply to an input says, which has so many vertices where it is not refused, where its form
// is right and the output list is kept behind it.
pub fn ask(
    input: &[u8],
    vertices: u16,
    distances: &mut [u16],
    parents: &mut [u16],
) -> Option<Seen> {
    let mut output = [BLANK; 8280];
    let count = report::respond(input, &mut output);
    let seen = answer_text::read(first(&output, count), vertices, distances, parents)?;
    is_filled(&output, count, BLANK).then_some(seen)
}

// Whether the reply has the number.
pub fn answers(input: &[u8], vertices: u16, number: u16) -> bool {
    let mut distances = [0u16; 512];
    let mut parents = [0u16; 512];
    ask(input, vertices, &mut distances, &mut parents).is_some_and(|seen| seen.number
        == usize::from(number))
}
