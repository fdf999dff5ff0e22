// Plain counts: how often each number is in each bag, how often each node was met. A bag's row
// has a place for each number.
use testkit::contents::{at, put};

// Counts one more at a place; the largest count stays.
pub fn raise(counts: &mut [u16], place: usize) {
    if let Some(count) = counts.get_mut(place) {
        *count = count.saturating_add(1);
    }
}

// Counts one less at a place, and says whether there was one.
pub fn lower(counts: &mut [u16], place: usize) -> bool {
    let count = at(counts, place);
    put(counts, place, count.saturating_sub(1));
    0 < count
}

// Counts each of the nodes.
pub fn add_nodes(met: &mut [u16], nodes: &[u16]) {
    for node in nodes {
        raise(met, usize::from(*node));
    }
}

// Counts the number of each of the nodes.
pub fn add_numbers(row: &mut [u16], nodes: &[u16], values: &[u16]) {
    for node in nodes {
        let value = at(values, usize::from(*node));
        raise(row, usize::from(value));
    }
}

// Whether a row counts what two others count together; the three are equally long.
pub fn is_sum(row: &[u16], first: &[u16], second: &[u16]) -> bool {
    let even = (row.len() == first.len()) & (row.len() == second.len());
    let mut parts = first.iter().zip(second).zip(row);
    even & parts.all(|((a, b), sum)| *sum == a.wrapping_add(*b))
}

// Whether all hold 1.
pub fn are_ones(counts: &[u16]) -> bool {
    counts.iter().all(|count| *count == 1)
}
