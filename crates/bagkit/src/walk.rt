// The test's own walk over the node lists. A bag's nodes become one list: slot after slot, and of a
// slot its root first and then the tree below it, level by level. How deep a tree goes is said by
// its slot alone. Every place is guarded, so that a bag with faults is walked
// to an end too.
use bag::Bag;
pub use testkit::contents::put as store;
use testkit::words::{at, at_place};

// The place-th node of a pennant from its parent: the root has a left child alone, and below it the
// children of the node at place p stand at 2p and 2p + 1.
fn child(parent: u16, place: usize, left: &[u16], right: &[u16]) -> u16 {
    if place == 1 {
        return at(left, parent);
    }
    if place % 2 == 0 {
        at(left, parent)
    } else {
        at(right, parent)
    }
}

// Writes the nodes of a pennant of `size` nodes, from the place `start` on.
fn pennant(root: u16, size: usize, left: &[u16], right: &[u16], nodes: &mut [u16], start: usize) {
    store(nodes, start, root);
    for place in 1..size {
        let parent = at_place(nodes, start.wrapping_add(place / 2));
        store(
            nodes,
            start.wrapping_add(place),
            child(parent, place, left, right),
        );
    }
}

// Writes the nodes of a slot from the place `count` on, and says how many there are then.
fn slot(
    root: u16,
    size: usize,
    left: &[u16],
    right: &[u16],
    nodes: &mut [u16],
    count: usize,
) -> usize {
    if root == 0 {
        return count;
    }
    pennant(root, size, left, right, nodes, count);
    count.wrapping_add(size)
}

// Writes the nodes of a bag, and says how many there are.
pub fn nodes_of(bag: Bag, left: &[u16], right: &[u16], nodes: &mut [u16]) -> usize {
    let mut count = 0;
    let mut size: usize = 1;
    for root in bag.slots {
        count = slot(root, size, left, right, nodes, count);
        size = size.wrapping_add(size);
    }
    count
}

// Writes the nodes of the free chain, at most as many as the list has places, and says how many
// there are.
pub fn free_nodes(left: &[u16], nodes: &mut [u16]) -> usize {
    let mut node = at(left, 0);
    for count in 0..left.len() {
        if node == 0 {
            return count;
        }
        store(nodes, count, node);
        node = at(left, node);
    }
    left.len()
}

// Which slots are filled: slot k counts 2^k.
pub fn filled(bag: Bag) -> usize {
    bag.slots.iter().rev().fold(0, |sum: usize, root| {
        sum.wrapping_mul(2).wrapping_add(usize::from(*root != 0))
    })
}
