// Calls of `respond` and `respond_in`, each with its whole output list compared with what it must hold.
use page_report::{INPUT_PLACES, OUTPUT_PLACES};
use pagekit::{BLANK, is_printed, need};
use testkit::files::{copy, first, is_filled};

// How many places the program's output list has, and five more.
const LONGER_OUTPUT: usize = 87743;

// Whether the text is a line with the number, which has one digit or two.
fn is_line(text: &[u8], number: u16) -> bool {
    let last = b'0' + (number % 10) as u8;
    let tens = b'0' + (number / 10 % 10) as u8;
    if number < 10 {
        text == &[last, b'\n'][..]
    } else {
        text == &[tens, last, b'\n'][..]
    }
}

// What a reply must be: a line with the number, but with 0 the pages of so many vertices with these
// labels.
#[derive(Clone, Copy)]
pub struct Wanted<'a> {
    pub number: u16,
    pub vertices: u16,
    pub distances: &'a [u16],
    pub parents: &'a [u16],
}

// Whether the output is as wanted, and the list is kept behind it. `count` is what the call answered, and
// is compared: the list is looked at whole.
pub fn is_reply(output: &[u8], count: usize, wanted: Wanted) -> bool {
    let Wanted {
        number,
        vertices,
        distances,
        parents,
    } = wanted;
    if number == 0 {
        return (count == need(vertices)) & is_printed(output, vertices, distances, parents);
    }
    is_line(first(output, count), number) & is_filled(output, count, BLANK)
}

// Whether an input is answered so.
pub fn answers(input: &[u8], wanted: Wanted) -> bool {
    let mut output = [BLANK; LONGER_OUTPUT];
    let count = page_report::respond(input, &mut output);
    is_reply(&output, count, wanted)
}

// Whether bytes are answered so in the program's buffers: so many are said to be read, and the input
// buffer has as many of them as it has places. `said` is no length: it may pass the buffer's end.
pub fn answers_in(bytes: &[u8], said: usize, wanted: Wanted) -> bool {
    let mut buffer = [0u8; INPUT_PLACES];
    let mut output = [BLANK; OUTPUT_PLACES];
    copy(bytes, &mut buffer, 0);
    let count = page_report::respond_in(&buffer, said, &mut output);
    is_reply(&output, count, wanted)
}
