// From input bytes to output bytes.
ghost use Rattle.std.specs.Prelude.{◌≡◌, ◌+◌, ◌≤◌, length, take};
ghost use Rattle.numbers.specs.Numbers.{success};
ghost use Rattle.numbers.specs.Refusals.{first};
ghost use Rattle.text.specs.Output.{respond_exit};
ghost use Rattle.text.specs.Printed.{Printed, Prints};
ghost use Rattle.page_report.specs.Input.{own_refusals, longest_input};
ghost use Rattle.page_report.specs.Respond.{number_line, response, output_places, outcome_of_respond};

use crate::input::{check_input, copy_words};
use crate::{INPUT_PLACES, OUTPUT_PLACES};
use graph::words::word;
use page::{page, page_need};
use text::{LINE_FEED, UNALIGNED, put_field};

// The line of a refusal.
#[tactic(auto, using(text::proofs::DecimalFacts::decimal_most))]
fn put_number_line(output: &mut [u8], number: usize) -> usize
    requires { 21 ≤ length output.old }
    ensures { Prints (number_line number) output.old 0 output.new result }
{
    put_field(output, 0, number, UNALIGNED, LINE_FEED)
}

// The pages of an input that passes the program's own order, with the program's lists; or the line of
// the page's refusal.
#[tactic(auto, using(crate::proofs::InputFacts::own_passed), unfolding(crate::specs::Input::count_in))]
fn page_and_print(input: &[u8], output: &mut [u8]) -> usize
    requires input_value { first (own_refusals input.now) ≡ success }
    requires output_places_in_bounds { output_places ≤ length output.old }
    ensures { Printed output.old (response input.now) output.new result }
{
    let count = word(input, 1);
    let start = 4 + 4 * count;
    let file = &input[start..];
    let mut distances = [0u16; 4096];
    let mut parents = [0u16; 4096];
    let mut offsets = [0u16; 4097];
    let mut targets = [0u16; 32768];
    let mut marks = [0u16; 32768];
    copy_words(input, 2, count, &mut distances);
    copy_words(input, 2 + count, count, &mut parents);
    let paged = page(
        file,
        word(input, 0),
        &distances[..count],
        &parents[..count],
        &mut offsets,
        &mut targets,
        &mut marks,
        output,
    );
    match paged {
        Ok(()) => page_need(word(file, 0)),
        Err(refused) => put_number_line(output, refused.number()),
    }
}

// The page program: what it writes for this input goes to the front of the output, and the answer says
// how many bytes that is. An output list of fewer than `OUTPUT_PLACES` places is left as it is.
// `report::respond` differs in both of its steps: a function of the steps would take more clauses on them
// than this one has lines.
pub fn respond(input: &[u8], output: &mut [u8]) -> usize
    ensures output_after { respond_exit result output.new ≡ outcome_of_respond input.now output.old }
    ensures upper_bound { result ≤ length output.new }
{
    if output.len() < OUTPUT_PLACES {
        return 0;
    }
    match check_input(input) {
        Ok(()) => page_and_print(input, output),
        Err(refused) => put_number_line(output, refused.number()),
    }
}

// The page program in its buffers: the first `read` bytes of the input buffer are the input, or all of
// it where `read` is larger. By its type that buffer has one place more than the longest input that
// can be accepted; a longer input is answered as the bytes that fill the buffer are (`long_input`,
// proofs/OutputFacts.antt). `report` has these two lines with its own sizes and `respond`.
pub fn respond_in(
    input: &[u8; INPUT_PLACES],
    read: usize,
    output: &mut [u8; OUTPUT_PLACES],
) -> usize
    ensures input_len { length input.now ≡ longest_input + 1 }
    ensures output_len { length output.old ≡ output_places }
    ensures output_len_2 { length output.new ≡ output_places }
    ensures output_after { respond_exit result output.new
        ≡ outcome_of_respond (take read input.now) output.old }
    ensures upper_bound { result ≤ length output.new }
{
    let count = read.min(INPUT_PLACES);
    respond(&input[..count], output)
}
