// The lists that a call left, compared with what it must leave. Each of the nine lists has a number
// of its own at all places at entry.
use crate::counts::places;
use crate::requests::{Request, Seen, is_played};
use testkit::contents::is_filled;
pub use testkit::reading::cleared;
use testkit::words::{agree, holds};

// What the lists hold before a call, at every place.
pub const OFFSETS_TAG: u16 = 7777;

pub const TARGETS_TAG: u16 = 12345;

pub const MARKS_TAG: u16 = 99;

pub const DISTANCES_TAG: u16 = 1;

pub const PARENTS_TAG: u16 = 2;

pub const HISTOGRAM_TAG: u16 = 60003;

pub const LEFT_TAG: u16 = 300;

pub const RIGHT_TAG: u16 = 17000;

pub const VALUES_TAG: u16 = 5;

// Whether the first n + 1 offsets and m targets are these, the first m marks are 0, and what lies
// past them is as it was.
pub fn are_rows(
    offsets: &[u16],
    targets: &[u16],
    marks: &[u16],
    rows: &[u16],
    row_targets: &[u16],
    n: usize,
    m: usize,
) -> bool {
    let places = n.wrapping_add(1);
    let written = agree(offsets, rows, places)
        & agree(targets, row_targets, m)
        & holds(marks, m, 0);
    let rest = is_filled(offsets, places, OFFSETS_TAG) & is_filled(targets, m, TARGETS_TAG);
    written & rest & is_filled(marks, m, MARKS_TAG)
}

// Whether distances, parents and counts are as they were from a place on.
pub fn are_labels_kept(distances: &[u16], parents: &[u16], histogram: &[u16], from: u16) -> bool {
    let place = usize::from(from);
    let reached = is_filled(distances, place, DISTANCES_TAG);
    let named = is_filled(parents, place, PARENTS_TAG);
    reached & named & is_filled(histogram, place, HISTOGRAM_TAG)
}

// Whether the first places of the node lists are 0, and the others as they were. The count is what a
// call had to clear, whatever the lists' length: the whole lists are looked at.
pub fn are_nodes_cleared(left: &[u16], right: &[u16], values: &[u16], count: usize) -> bool {
    let zeros = holds(left, count, 0) & holds(right, count, 0) & holds(values, count, 0);
    let rest = is_filled(left, count, LEFT_TAG) & is_filled(right, count, RIGHT_TAG);
    zeros & rest & is_filled(values, count, VALUES_TAG)
}

// Whether offsets and targets are as they were, and the marks but for the first `zeros`.
pub fn are_rows_kept(offsets: &[u16], targets: &[u16], marks: &[u16], zeros: usize) -> bool {
    let rows = is_filled(offsets, 0, OFFSETS_TAG) & is_filled(targets, 0, TARGETS_TAG);
    rows & holds(marks, zeros, 0) & is_filled(marks, zeros, MARKS_TAG)
}

// How many of the first labels and counts may have changed.
pub fn labelled(number: usize, vertices: u16) -> u16 {
    if is_played(number) { vertices } else { 0 }
}

// How many of the first nodes must be 0.
pub fn used_nodes(number: usize, vertices: u16, workers: u16) -> usize {
    if is_played(number) {
        places(vertices, workers)
    } else {
        0
    }
}

// Whether the call left rows and marks as its number says.
pub fn is_left(
    seen: Seen,
    request: Request,
    offsets: &[u16],
    targets: &[u16],
    marks: &[u16],
    rows: &[u16],
    row_targets: &[u16],
) -> bool {
    if is_played(seen.number) {
        let n = usize::from(request.vertices);
        return are_rows(
            offsets,
            targets,
            marks,
            rows,
            row_targets,
            n,
            usize::from(request.edges),
        );
    }
    let zeros = cleared(seen.number, request.edges);
    are_rows_kept(offsets, targets, marks, zeros)
}
