// What bags hold, read off the lists by the test's own walk. The lists that are written are lent:
// `nodes` is working room, `found` has the counts.
use crate::counts::{add_numbers, are_ones};
use crate::walk::nodes_of;
use bag::Bag;
use testkit::contents::first as first_places;
use testkit::words::total;

// Counts the numbers of a bag in the row `found`, and says how many there are.
pub fn add_bag(
    bag: Bag,
    left: &[u16],
    right: &[u16],
    values: &[u16],
    nodes: &mut [u16],
    found: &mut [u16],
) -> usize {
    let count = nodes_of(bag, left, right, nodes);
    add_numbers(found, first_places(nodes, count), values);
    count
}

// Whether the first two bags have `first` and `second` numbers, together each below `count` once,
// and nothing else. The counts are 0 before.
pub fn are_parts(
    bags: [Bag; 4],
    count: usize,
    first: usize,
    second: usize,
    left: &[u16],
    right: &[u16],
    values: &[u16],
    nodes: &mut [u16],
    found: &mut [u16],
) -> bool {
    let a = add_bag(bags[0], left, right, values, nodes, found);
    let b = add_bag(bags[1], left, right, values, nodes, found);
    let all = total(found);
    (a == first) & (b == second) & are_ones(first_places(found, count)) & (all == count)
}
