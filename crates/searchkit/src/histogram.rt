// How many vertices stand at each distance, counted apart from the library: for each place of the
// counts all distances are looked at.
use crate::labels::UNSET;
use crate::requests::{Seen, is_played};
use testkit::words::{at, first, total};

// How many of the first n distances are this one.
fn standing(distances: &[u16], vertices: u16, distance: u16) -> usize {
    (0..vertices)
        .filter(|vertex| at(distances, *vertex) == distance)
        .count()
}

// Whether each of the first n counts is the number of distances that are its place.
fn is_recount(distances: &[u16], histogram: &[u16], vertices: u16) -> bool {
    (0..vertices).all(|place| {
        usize::from(at(histogram, place)) == standing(distances, vertices, place)
    })
}

// The first place of the first n whose count is 0; n where there is none.
fn first_zero(histogram: &[u16], vertices: u16) -> u16 {
    (0..vertices)
        .find(|place| at(histogram, *place) == 0)
        .unwrap_or(vertices)
}

// Whether a search that was played left counts that are those of the first n distances, as many in all
// as distances are set, and at least 1 at each place from 0 to the layer.
pub fn are_counts(seen: Seen, distances: &[u16], histogram: &[u16], vertices: u16) -> bool {
    if !is_played(seen.number) {
        return true;
    }
    let n = usize::from(vertices);
    let set = n.wrapping_sub(standing(distances, vertices, UNSET));
    let is_total = total(first(histogram, n)) == set;
    let is_positive = seen.layer < usize::from(first_zero(histogram, vertices));
    is_recount(distances, histogram, vertices) & is_total & is_positive
}
