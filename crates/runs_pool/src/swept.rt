// The lists as a whole: what `bag::sweep` clears and what it keeps, which places `bag::pool` chains
// and which it keeps. Both with known contents before, at every size that the lists have room for.
use bagkit::walk::free_nodes;
use std::io;
use testkit::group::Tally;
use testkit::words::{at_place, holds, is_stamped, stamp};

const LEFT_TAG: u16 = 300;

const RIGHT_TAG: u16 = 4000;

const VALUES_TAG: u16 = 50;

// Whether the first places are 0 and the others are as they were.
fn is_swept(list: &[u16], places: usize, tag: u16) -> bool {
    holds(list, places, 0) & is_stamped(list, places, tag)
}

fn sweeps(places: usize) -> bool {
    let mut left = [0u16; 40];
    let mut right = [0u16; 45];
    let mut values = [0u16; 42];
    stamp(&mut left, LEFT_TAG);
    stamp(&mut right, RIGHT_TAG);
    stamp(&mut values, VALUES_TAG);
    if 40 < places {
        return false;
    }
    bag::sweep(&mut left, &mut right, &mut values, places);
    is_swept(&left, places, LEFT_TAG)
        & is_swept(&right, places, RIGHT_TAG)
        & is_swept(&values, places, VALUES_TAG)
}

// Whether each of the first places leads to the next node, and the last to none.
fn is_chain(left: &[u16], nodes: usize) -> bool {
    let leads_on = (0..nodes).all(|i| usize::from(at_place(left, i)) == i.wrapping_add(1));
    leads_on && at_place(left, nodes) == 0
}

fn pools(nodes: usize) -> bool {
    let mut left = [0u16; 40];
    let mut free = [0u16; 40];
    stamp(&mut left, LEFT_TAG);
    if 40 <= nodes {
        return false;
    }
    bag::pool(&mut left, nodes);
    let count = free_nodes(&left, &mut free);
    (count == nodes) & is_chain(&left, nodes) & is_stamped(&left, nodes + 1, LEFT_TAG)
}

fn all_sweeps() -> Tally {
    (0..=40).fold(Tally::new(), |tally, places| tally.with(sweeps(places)))
}

fn all_pools() -> Tally {
    (0..40).fold(Tally::new(), |tally, nodes| tally.with(pools(nodes)))
}

pub fn run(rt: &impl Print) -> io::Result<()> {
    all_sweeps().and(all_pools()).print(rt, "swept lists")
}
