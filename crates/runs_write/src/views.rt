// The view of one vertex's edges: every row of random graphs, each condition of number 11, and
// random lists of any form against a plain check.
use numbers::told;
use std::io;
use testkit::group::Tally;
use testkit::random::{below, leap, next};
use testkit::sample::draw;
use testkit::words::first;

const ROUND_COUNT: u16 = 3000;

// Whether the view gives the part from `start` to `end`, and the number 0.
pub fn gives(offsets: &[u16], targets: &[u16], vertex: usize, start: usize, end: usize) -> bool {
    let part = view::links(offsets, targets, vertex);
    let answer = view::check_links(offsets, targets, vertex);
    answer.is_ok() && targets.get(start..end) == Some(part)
}

// Whether the view gives an empty part, and the number 11.
pub fn is_out(offsets: &[u16], targets: &[u16], vertex: usize) -> bool {
    let part = view::links(offsets, targets, vertex);
    let answer = view::check_links(offsets, targets, vertex);
    told(&answer) == 11 && part.is_empty()
}

// How many edges start before the vertex: where its row starts.
fn start_of(sources: &[u16], vertex: u16) -> usize {
    sources.iter().filter(|source| **source < vertex).count()
}

// Each row of a graph, by the sources of its edges.
fn rows(offsets: &[u16], targets: &[u16], sources: &[u16], vertices: u16) -> Tally {
    let mut tally = Tally::new();
    for vertex in 0..vertices {
        let start = start_of(sources, vertex);
        let end = start_of(sources, vertex + 1);
        tally = tally.with(gives(offsets, targets, usize::from(vertex), start, end));
    }
    tally
}

fn random_rows(seed: u64) -> Tally {
    let mut sources = [0u16; 250];
    let mut targets = [0u16; 250];
    let mut offsets = [0u16; 201];
    draw(&mut sources, &mut targets, &mut offsets, 200, 250, seed);
    rows(&offsets, &targets, &sources, 200)
}

// Each condition of number 11, and rows beside it that are given.
fn conditions() -> Tally {
    let targets = [5u16, 6, 7, 8];
    let few = is_out(&[], &targets, 0) & is_out(&[0], &targets, 0) & is_out(&[], &[], 0);
    let past = is_out(&[0, 2, 4], &targets, 2) & is_out(&[0, 2, 4], &targets, 3);
    let far = is_out(&[0, 2, 4], &targets, usize::MAX);
    let falling = is_out(&[0, 3, 2, 4], &targets, 1) & is_out(&[1, 0], &targets, 0);
    let beyond = is_out(&[0, 2, 5], &targets, 1) & is_out(&[9, 9], &targets, 0);
    Tally::new()
        .with(few)
        .with(past)
        .with(far)
        .with(falling)
        .with(beyond)
}

// Rows that are given, though others are malformed; and empty ones.
fn given() -> Tally {
    let targets = [5u16, 6, 7, 8];
    let near = gives(&[0, 3, 2, 4], &targets, 2, 2, 4) & gives(&[0, 2, 5], &targets, 0, 0, 2);
    let empty = gives(&[0, 4, 4], &targets, 1, 4, 4) & gives(&[0, 0, 4], &targets, 0, 0, 0);
    let none = gives(&[0, 0], &[], 0, 0, 0);
    Tally::new().with(near).with(empty).with(none)
}

// Where the row of a vertex starts and ends; none where one of the four conditions of number 11 holds.
fn row_of(offsets: &[u16], targets: &[u16], vertex: usize) -> Option<(usize, usize)> {
    let start = usize::from(*offsets.get(vertex)?);
    let end = usize::from(*offsets.get(vertex.wrapping_add(1))?);
    if start <= end && end <= targets.len() {
        Some((start, end))
    } else {
        None
    }
}

fn view_is_right(offsets: &[u16], targets: &[u16], vertex: usize) -> bool {
    match row_of(offsets, targets, vertex) {
        Some((start, end)) => gives(offsets, targets, vertex, start, end),
        None => is_out(offsets, targets, vertex),
    }
}

// Draws every place below the bound.
fn scatter(list: &mut [u16], bound: u16, seed: u64) {
    let mut state = seed;
    for place in list {
        state = next(state);
        *place = below(state, bound);
    }
}

// Random lists of random lengths, and any vertex.
fn random_view(seed: u64) -> bool {
    let mut offsets = [0u16; 6];
    let mut targets = [0u16; 8];
    scatter(&mut offsets, 11, seed);
    scatter(&mut targets, 60000, leap(seed));
    let rows = first(&offsets, usize::from(below(leap(seed), 7)));
    let edges = first(&targets, usize::from(below(next(leap(seed)), 9)));
    let vertex = usize::from(below(leap(leap(seed)), 7));
    view_is_right(rows, edges, vertex)
}

fn random_views() -> Tally {
    let mut tally = Tally::new();
    let mut state: u64 = 12;
    for _ in 0..ROUND_COUNT {
        state = leap(state);
        tally = tally.with(random_view(state));
    }
    tally
}

pub fn run(rt: &impl Print) -> io::Result<()> {
    random_rows(14)
        .and(random_rows(15))
        .print(rt, "rows in view")?;
    conditions().print(rt, "out of view")?;
    given().print(rt, "in view")?;
    random_views().print(rt, "random views")
}
