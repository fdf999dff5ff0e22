// Paths, which have as many layers as vertices; and the longest one under full rounds of one worker, cut
// at places that lie evenly.
use crate::requests::{Request, Seen, needs};
use testkit::sample::{after, encode_in_order, file_length};
use testkit::words::put;

// The longest path: its last case's schedule has all bytes, the others' an eighth of them less each.
pub const CASES: u16 = 9;

const VERTICES: u16 = 4096;

const EDGES: u16 = 4095;

const EIGHTH: usize = 5119;

// How many bytes finish it.
pub const BYTES: usize = 40952;

// A path of this many edges, from vertex 0 on: its edges, and the rows up to its end.
pub fn line(edges: u16, sources: &mut [u16], row_targets: &mut [u16], rows: &mut [u16]) {
    for edge in 0..edges {
        let next = after(edge);
        put(sources, edge, edge);
        put(row_targets, edge, next);
        put(rows, next, next);
        put(rows, after(next), next);
    }
}

// The longest path and its file, into lists of zeros. `order` is working room.
pub fn make(
    file: &mut [u8],
    sources: &mut [u16],
    row_targets: &mut [u16],
    rows: &mut [u16],
    order: &mut [u16],
) {
    line(EDGES, sources, row_targets, rows);
    encode_in_order(file, VERTICES, EDGES, sources, row_targets, order);
}

// How many bytes a case has.
fn length_of(case: u16) -> usize {
    usize::from(case) * EIGHTH
}

// The request of a case. The lists are at their need, or up to three places longer.
pub fn request_of(case: u16) -> Request {
    Request {
        source: 0,
        workers: 1,
        vertices: VERTICES,
        edges: EDGES,
        file: file_length(VERTICES, EDGES),
        schedule: length_of(case),
        lengths: needs(VERTICES, EDGES, 1, case % 4),
    }
}

// How many vertices have a distance after a case. Every second byte is a move; the worker has five
// moves for each vertex but the last, and the third of them marks the next one.
pub fn reached(case: u16) -> usize {
    let length = length_of(case);
    let moves = length / 2 + length % 2;
    (moves + 2) / 5 + 1
}

// Whether a case answered what it must: the worker's moves are effective, and the closes after each
// fifth.
pub fn is_answer(case: u16, seen: Seen) -> bool {
    let length = length_of(case);
    let closes = length / 10;
    let all = length / 2 + length % 2 + closes;
    let counted = (seen.used == length) & (seen.layer == closes);
    if length < BYTES {
        return counted & (seen.number == 21) & (seen.effective == all);
    }
    counted & (seen.number == 0) & (seen.effective == all + 1)
}
