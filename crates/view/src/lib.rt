// The view of one vertex's edges, as a part of the caller's own targets. `links` and `check_links`
// are outside calls; they assume nothing.
#![tactic(auto)]

ghost use Rattle.std.specs.Prelude.{◌≡◌, ◌+◌, ◌≤◌, true, ltb, MatchOption, length, get_or};
ghost use Rattle.numbers.specs.Told.{told};
ghost use Rattle.graph.specs.Links.{out_of_view, links_number, links_start, word_place, links_of};

use graph::words::element;
use numbers::Refused;
use std::ops::Range;

// Where the row of a vertex starts and ends in the targets: its two offsets, which may fall. `None` where it
// has none or the second passes the end of the targets.
fn bounds(offsets: &[u16], targets: &[u16], vertex: usize) -> Option<Range<usize>>
    ensures { MatchOption result (out_of_view offsets.now targets.now vertex ≡ true)
        (λ row. (ltb row.end row.start ≡ out_of_view offsets.now targets.now vertex)
        × (row.start ≡ get_or offsets.now vertex 0) × (row.end ≡ get_or offsets.now (vertex + 1) 0)
        × (row.end ≤ length targets.now)) }
{
    if offsets.len() < 2 {
        return None;
    }
    if offsets.len() - 1 <= vertex {
        return None;
    }
    let start = element(offsets, vertex);
    let end = element(offsets, vertex + 1);
    let past = targets.len() < end;
    if past {
        return None;
    }
    Some(start..end)
}

// "The part of the targets list itself that belongs to the device, or an empty part where number 11
// holds": where it is, then what it holds. The empty part is at the front.
pub fn links<'a, 'b>(offsets: &'b [u16], targets: &'a [u16], vertex: usize) -> &'a [u16]
    ensures ref_ptr_value { result.ref_ptr
        ≡ word_place targets.entry.ref_ptr (links_start offsets.now targets.now vertex) }
    ensures result_value { result.now ≡ links_of offsets.now targets.now vertex }
{
    let front = 0;
    match bounds(offsets, targets, vertex) {
        Some(row) if row.start <= row.end => &targets[row],
        _ => &targets[front..front],
    }
}

// "a sister call gives 0 or 11": 11 where the vertex is out of view.
pub fn check_links(offsets: &[u16], targets: &[u16], vertex: usize) -> Result<(), Refused>
    ensures { told result ≡ links_number offsets.now targets.now vertex }
{
    match bounds(offsets, targets, vertex) {
        Some(row) if row.start <= row.end => Ok(()),
        _ => Err(Refused::BadRows),
    }
}
