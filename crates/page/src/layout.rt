// The pages' lines, printed one behind the other.
ghost use Rattle.std.specs.Prelude.{◌≡◌, ◌+◌, ◌<◌, ◌≤◌, length};
ghost use Rattle.numbers.specs.Numbers.{max_vertices};
ghost use Rattle.text.specs.Printed.{Prints};
ghost use Rattle.page.specs.Layout.{line_bytes, head_line, vertex_line, page_text, page_need};
ghost use Rattle.page.specs.Steps.{entry_text};

use crate::{LINE_BYTES, PAGE_VERTICES};
use text::{LINE_FEED, SPACE, put_field, put_label, put_text};

// How many bytes the pages of n vertices have.
pub fn page_need(n: usize) -> usize
    requires { n ≤ max_vertices }
    ensures { result ≡ page_need n }
{
    let pages = n.div_ceil(PAGE_VERTICES);
    LINE_BYTES * (n + pages)
}

// A page's line one: its words in columns 1 to 10, its number in columns 11 to 20.
#[tactic(auto, using(crate::proofs::LineFacts::few_digits))]
fn put_head_line(output: &mut [u8], at: usize, number: usize) -> usize
    requires number_le_max_vertices { number ≤ max_vertices }
    requires line_bytes_in_bounds { at + line_bytes ≤ length output.old }
    ensures value { result ≡ at + line_bytes }
    ensures prints { Prints (head_line number) output.old at output.new result }
{
    let next = put_text(output, at, b"HOPS page ");
    put_field(output, next, number, 10, LINE_FEED)
}

// A vertex's line: the vertex in columns 1 to 5, its distance in 7 to 13, its parent in 15 to 20. One
// function of this and `report`'s would need the contract of a line that no definition is about.
#[tactic(auto, using(crate::proofs::LineFacts::few_digits, text::proofs::TextFacts::label_short))]
fn put_vertex_line(output: &mut [u8], at: usize, vertex: usize, distance: u16, parent: u16) -> usize
    requires vertex_lt_max_vertices { vertex < max_vertices }
    requires line_bytes_in_bounds { at + line_bytes ≤ length output.old }
    ensures value { result ≡ at + line_bytes }
    ensures prints { Prints (vertex_line vertex distance parent) output.old at output.new result }
{
    let first = put_field(output, at, vertex, 5, SPACE);
    let second = put_label(output, first, usize::from(distance), 7, SPACE);
    put_label(output, second, usize::from(parent), 6, LINE_FEED)
}

// A vertex's line, with the page's line one before it where the vertex is the first of a page.
#[tactic(auto, using(crate::proofs::PageFacts::entry_first, crate::proofs::PageFacts::entry_other))]
fn put_entry(output: &mut [u8], at: usize, vertex: usize, distance: u16, parent: u16) -> usize
    requires vertex_lt_max_vertices { vertex < max_vertices }
    requires at_value { (at ≡ page_need vertex) × (page_need (vertex + 1) ≤ length output.old) }
    ensures value { result ≡ page_need (vertex + 1) }
    ensures prints { Prints (entry_text vertex distance parent) output.old at output.new result }
{
    if vertex % PAGE_VERTICES != 0 {
        return put_vertex_line(output, at, vertex, distance, parent);
    }
    let next = put_head_line(output, at, vertex / PAGE_VERTICES + 1);
    put_vertex_line(output, next, vertex, distance, parent)
}

// The pages of n vertices, from the list's front on. `report`'s loop is alike: a function of both would
// take the step, its lines and its bound, to save four lines.
pub fn put_pages(output: &mut [u8], n: usize, distances: &[u16], parents: &[u16]) -> usize
    requires n_le_max_vertices { n ≤ max_vertices }
    requires n_in_bounds { n ≤ length distances.now }
    requires n_in_bounds_2 { n ≤ length parents.now }
    requires n_in_bounds_3 { page_need n ≤ length output.old }
    ensures value { result ≡ page_need n }
    ensures prints { Prints (page_text n distances.now parents.now)
        output.old 0 output.new result }
{
    let mut next = 0;
    for vertex in 0..n {
        next = put_entry(output, next, vertex, distances[vertex], parents[vertex]);
    }
    next
}
