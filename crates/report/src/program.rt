// From input bytes to output bytes.
ghost use Rattle.std.specs.Prelude.{◌≡◌, ◌+◌, ◌≤◌, length, take};
ghost use Rattle.numbers.specs.Numbers.{success};
ghost use Rattle.numbers.specs.Refusals.{first};
ghost use Rattle.text.specs.Output.{respond_exit};
ghost use Rattle.text.specs.Printed.{Printed};
ghost use Rattle.graph.specs.File.{vertex_count};
ghost use Rattle.report.specs.Input.{file_in, own_refusals, longest_input};
ghost use Rattle.report.specs.Respond.{searched, lines, output_places, outcome_of_respond};

use crate::input::check_input;
use crate::lines::{put_first_line, put_vertex_lines};
use crate::{INPUT_PLACES, OUTPUT_PLACES};
use graph::words::word;
use search::search;

// The search of an input that passes the program's own order, with the program's lists, and its lines.
fn search_and_print(input: &[u8], output: &mut [u8]) -> usize
    requires input_value { first (own_refusals input.now) ≡ success }
    requires output_places_in_bounds { output_places ≤ length output.old }
    ensures { Printed output.old
        (lines (vertex_count (file_in input.now)) (searched input.now))
        output.new result }
{
    let start = 6 + word(input, 2);
    let file = &input[start..];
    let mut offsets = [0u16; 513];
    let mut targets = [0u16; 2048];
    let mut marks = [0u16; 2048];
    let mut distances = [0u16; 512];
    let mut parents = [0u16; 512];
    let mut histogram = [0u16; 512];
    let mut left = [0u16; 4097];
    let mut right = [0u16; 4097];
    let mut values = [0u16; 4097];
    let found = search(
        file,
        word(input, 0),
        word(input, 1),
        &input[6..start],
        &mut offsets,
        &mut targets,
        &mut marks,
        &mut distances,
        &mut parents,
        &mut histogram,
        &mut left,
        &mut right,
        &mut values,
    );
    let next = put_first_line(output, &found);
    // Tested by its number, and not by `is_ok`, so that the edit `respond_lines_with_refusal` changes a test.
    let number = search::number(&found);
    let finished = number == numbers::SUCCESS;
    if finished || number == numbers::UNFINISHED {
        return put_vertex_lines(output, next, word(file, 0), &distances, &parents);
    }
    next
}

// The program: what it writes for this input goes to the front of the output, and the answer says how
// many bytes that is. An output list of fewer than `OUTPUT_PLACES` places is left as it is.
// `page_report::respond` differs in both of its steps: a function of the steps would take more clauses on them
// than this one has lines.
pub fn respond(input: &[u8], output: &mut [u8]) -> usize
    ensures output_after { respond_exit result output.new ≡ outcome_of_respond input.now output.old }
    ensures upper_bound { result ≤ length output.new }
{
    if output.len() < OUTPUT_PLACES {
        return 0;
    }
    match check_input(input) {
        Ok(()) => search_and_print(input, output),
        Err(refused) => put_first_line(output, &Err(refused)),
    }
}

// The program in its buffers: the first `read` bytes of the input buffer are the input, or all of it
// where `read` is larger. By its type that buffer has one place more than the longest input that can
// be accepted; a longer input is answered as the bytes that fill the buffer are (`long_input`,
// proofs/OutputFacts.antt). `page_report` has these two lines with its own sizes and `respond`.
pub fn respond_in(
    input: &[u8; INPUT_PLACES],
    read: usize,
    output: &mut [u8; OUTPUT_PLACES],
) -> usize
    ensures input_len { length input.now ≡ longest_input + 1 }
    ensures output_len { length output.old ≡ output_places }
    ensures output_len_2 { length output.new ≡ output_places }
    ensures output_after { respond_exit result output.new
        ≡ outcome_of_respond (take read input.now) output.old }
    ensures upper_bound { result ≤ length output.new }
{
    let count = read.min(INPUT_PLACES);
    respond(&input[..count], output)
}
