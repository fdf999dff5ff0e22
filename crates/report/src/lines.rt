// The program's lines, printed behind each other into the output.
ghost use Rattle.std.specs.Prelude.{◌+◌, ◌*◌, ◌<◌, ◌≤◌, length};
ghost use Rattle.text.specs.Printed.{Prints};
ghost use Rattle.report.specs.Input.{program_vertices};
ghost use Rattle.search.specs.Answers.{answer_of};
ghost use Rattle.report.specs.Lines.{first_line, vertex_line, vertex_lines};

use numbers::Refused;
use search::Answer;
use text::{LINE_FEED, SPACE, UNALIGNED, put_field, put_label};

// Line one of an answer: its number, and zeros beside a refusal's.
pub fn put_first_line(output: &mut [u8], found: &Result<Answer, Refused>) -> usize
    requires { 84 ≤ length output.old }
    ensures upper_bound { result ≤ 84 }
    ensures prints { Prints (first_line (answer_of found.now)) output.old 0 output.new result }
{
    match found {
        Ok(run) => put_numbers(
            output,
            run.ending.number(),
            run.used,
            run.effective,
            run.layer,
        ),
        Err(refused) => put_numbers(output, refused.number(), 0, 0, 0),
    }
}

// Line one: number, events used, effective, d.
#[tactic(auto, using(text::proofs::DecimalFacts::decimal_most))]
fn put_numbers(
    output: &mut [u8],
    number: usize,
    used: usize,
    effective: usize,
    layer: usize,
) -> usize
    requires { 84 ≤ length output.old }
    ensures upper_bound { result ≤ 84 }
    ensures prints { Prints (first_line (record { number = number; used = used; effective = effective; layer = layer }))
        output.old 0 output.new result }
{
    let first = put_field(output, 0, number, UNALIGNED, SPACE);
    let second = put_field(output, first, used, UNALIGNED, SPACE);
    let third = put_field(output, second, effective, UNALIGNED, SPACE);
    put_field(output, third, layer, UNALIGNED, LINE_FEED)
}

// A vertex's line: vertex, distance, parent. `page` has columns in the place of `UNALIGNED`: a function of
// the widths would need the contract of a line that no definition is about.
#[tactic(auto, using(crate::proofs::LineFacts::vertex_short, text::proofs::TextFacts::label_short))]
fn put_vertex_line(output: &mut [u8], at: usize, vertex: usize, distance: u16, parent: u16) -> usize
    requires at_in_bounds { at + 16 ≤ length output.old }
    requires vertex_bound { vertex < 1000 }
    ensures upper_bound { result ≤ at + 16 }
    ensures prints { Prints (vertex_line vertex distance parent) output.old at output.new result }
{
    let first = put_field(output, at, vertex, UNALIGNED, SPACE);
    let second = put_label(output, first, usize::from(distance), UNALIGNED, SPACE);
    put_label(output, second, usize::from(parent), UNALIGNED, LINE_FEED)
}

// The lines of the first n vertices. `page::layout::put_pages` has the same loop with exact places: one
// function of both would take the step, its lines and its bound on places, for four lines of code.
pub fn put_vertex_lines(
    output: &mut [u8],
    at: usize,
    n: usize,
    distances: &[u16],
    parents: &[u16],
) -> usize
    requires n_in_bounds { at + 16 * n ≤ length output.old }
    requires n_le_program_vertices { n ≤ program_vertices }
    requires n_in_bounds_2 { n ≤ length distances.now }
    requires n_in_bounds_3 { n ≤ length parents.now }
    ensures { Prints (vertex_lines n distances.now parents.now)
        output.old at output.new result }
{
    let mut next = at;
    for vertex in 0..n {
        next = put_vertex_line(output, next, vertex, distances[vertex], parents[vertex]);
    }
    next
}
