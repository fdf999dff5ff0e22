// The call in the program's buffers: the longest input that can be accepted, whole, cut, and with
// bytes behind it, of which the input buffer has as many as it has places.
use crate::answer_text::read;
use crate::drawn;
use crate::replies::BLANK;
use report::{INPUT_PLACES, OUTPUT_PLACES};
use searchkit::plans::Plan;
use testkit::files::{copy, first, stamp};

// How many bytes there are, how many are said to be read, the number.
pub const CASES: [[u16; 3]; 10] = [
    // the longest input, and one that is cut
    [17418, 17418, 0],
    [17417, 17417, 1],
    [9, 9, 1],
    [0, 0, 1],
    // bytes behind it: the input buffer is full
    [17419, 17419, 1],
    [17420, 17419, 1],
    [60000, 17419, 1],
    // more than the input buffer has places: all of it
    [17419, 17420, 1],
    [17420, 17420, 1],
    [60000, 65535, 1],
];

// The largest sizes; the search finishes.
fn longest() -> Plan {
    Plan {
        vertices: 512,
        edges: 2048,
        source: 0,
        workers: 1,
        length: 8192,
        mixture: 0,
        seed: 77,
    }
}

// Whether an output has the number, and is that to the input, whole. `count` is what the call answered:
// the output is compared with all its places.
fn is_reply(output: &[u8], count: usize, input: &[u8], number: u16) -> bool {
    let mut distances = [0u16; 512];
    let mut parents = [0u16; 512];
    let mut other = [BLANK; OUTPUT_PLACES];
    let wanted = report::respond(input, &mut other);
    let text = read(first(output, count), 512, &mut distances, &mut parents).is_some_and(
        |seen| seen.number == usize::from(number),
    );
    text & (count == wanted) & (output == &other[..])
}

// Whether the bytes, of which so many are said to be read, are answered with the number, as the input
// is. `said` is no length of theirs: it may pass the input buffer's end.
fn is_answered(bytes: &[u8], said: usize, input: &[u8], number: u16) -> bool {
    let mut buffer = [0u8; INPUT_PLACES];
    let mut output = [BLANK; OUTPUT_PLACES];
    copy(bytes, &mut buffer, 0);
    let count = report::respond_in(&buffer, said, &mut output);
    is_reply(&output, count, input, number)
}

// Other bytes stand behind the longest input.
pub fn is_right(row: &[u16; 3]) -> bool {
    let [length, said, number] = *row;
    let mut bytes = [0u8; 60000];
    stamp(&mut bytes, 3);
    let whole = drawn::put(longest(), &mut bytes);
    let input = first(&bytes, usize::from(length));
    let right = is_answered(&bytes, usize::from(said), input, number);
    right & (whole == report::LONGEST_INPUT)
}
