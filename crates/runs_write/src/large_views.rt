// The view of a graph of the largest size, 4,096 vertices and 32,768 edges: every row, and what is out
// of view where a list is one short. The last offset is 32,768; where the last row is empty, it starts
// there too.
use crate::views::{gives, is_out};
use std::io;
use testkit::group::Tally;
use testkit::words::{first, stamp};

const MOST_VERTICES: u16 = 4096;

const MOST_EDGES: u16 = 32768;

// What `stamp` puts into the targets.
const TARGETS_TAG: u16 = 12345;

// Where the row of a vertex starts: eight edges for each vertex before it, and `more` for the first.
// With 8 more none are left for the last vertex.
fn start_at(vertex: u16, more: u16) -> u16 {
    if vertex == 0 {
        return 0;
    }
    let start = 8 * usize::from(vertex) + usize::from(more);
    if start < usize::from(MOST_EDGES) {
        start as u16
    } else {
        MOST_EDGES
    }
}

// The offsets of these rows.
fn put_starts(offsets: &mut [u16], more: u16) {
    for (vertex, start) in (0..=MOST_VERTICES).zip(offsets) {
        *start = start_at(vertex, more);
    }
}

// The graph. The view looks at no target, so that any numbers that are known at every place will do.
fn make(offsets: &mut [u16], targets: &mut [u16], more: u16) {
    put_starts(offsets, more);
    stamp(targets, TARGETS_TAG);
}

// Each row.
fn all_rows(offsets: &[u16], targets: &[u16], more: u16) -> Tally {
    let mut tally = Tally::new();
    for vertex in 0..MOST_VERTICES {
        let start = usize::from(start_at(vertex, more));
        let end = usize::from(start_at(vertex + 1, more));
        tally = tally.with(gives(offsets, targets, usize::from(vertex), start, end));
    }
    tally
}

fn in_view(more: u16) -> Tally {
    let mut offsets = [0u16; 4097];
    let mut targets = [0u16; 32768];
    make(&mut offsets, &mut targets, more);
    all_rows(&offsets, &targets, more)
}

// A vertex too many; the last vertex with an offset or a target too few.
fn out_of_view(offsets: &[u16], targets: &[u16]) -> Tally {
    Tally::new()
        .with(is_out(offsets, targets, 4096))
        .with(is_out(first(offsets, 4096), targets, 4095))
        .with(is_out(offsets, first(targets, 32767), 4095))
}

// With a target too few a row that ends before it.
fn still_in_view(offsets: &[u16], targets: &[u16], more: u16) -> bool {
    let start = usize::from(start_at(4093, more));
    gives(offsets, first(targets, 32767), 4093, start, start + 8)
}

fn one_short(more: u16) -> Tally {
    let mut offsets = [0u16; 4097];
    let mut targets = [0u16; 32768];
    make(&mut offsets, &mut targets, more);
    let out = out_of_view(&offsets, &targets);
    out.with(still_in_view(&offsets, &targets, more))
}

pub fn run(rt: &impl Print) -> io::Result<()> {
    in_view(0)
        .and(in_view(8))
        .print(rt, "rows of the largest graph")?;
    one_short(0)
        .and(one_short(8))
        .print(rt, "largest graph, one short")
}
