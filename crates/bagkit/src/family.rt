// Four bags in one pool, and the operations on one or two of them. Each hands the bags back, and the
// pool is well-formed with them again. An operation whose condition fails leaves the bags
// as they are.
ghost use Rattle.std.specs.Prelude.{◌≡◌, ◌<◌, ◌≤◌, length, ◌≢◌};
ghost use Rattle.bag.specs.Promises.{Pooled};
ghost use Rattle.bagkit.specs.Family.{Room};

use crate::counts::raise;
use bag::Bag;

// What a take leaves, and the number taken; none from an empty bag.
#[derive(Clone, Copy)]
pub struct Drawn {
    pub bags: [Bag; 4],
    pub value: Option<u16>,
}

// Chains the nodes free; four empty bags.
pub fn start(left: &mut [u16], right: &[u16], nodes: usize) -> [Bag; 4]
    requires nodes_in_bounds { nodes < length left.old }
    requires left_len_bound { length left.old ≤ 65536 }
    requires left_in_bounds { length left.old ≤ length right.now }
    ensures { Pooled left.new right.now result }
{
    bag::pool(left, nodes);
    let none = bag::empty();
    [none; 4]
}

// Inserts the number into bag i, where a node is free.
pub fn put(
    bags: [Bag; 4],
    i: usize,
    value: u16,
    left: &mut [u16],
    right: &mut [u16],
    values: &mut [u16],
) -> [Bag; 4]
    requires pooled { Pooled left.old right.old bags }
    requires left_in_bounds { length left.old ≤ length values.old }
    requires i_bound { i < 4 }
    ensures { Pooled left.new right.new result }
{
    if left.len() == 0 {
        return bags;
    }
    if left[0] == 0 {
        return bags;
    }
    let old = bags[i];
    let mut after = bags;
    after[i] = bag::insert(old, value, left, right, values);
    after
}

// Takes a number from bag i, where it has one.
pub fn draw(bags: [Bag; 4], i: usize, left: &mut [u16], right: &[u16], values: &[u16]) -> Drawn
    requires pooled { Pooled left.old right.now bags }
    requires left_in_bounds { length left.old ≤ length values.now }
    requires i_bound { i < 4 }
    ensures { Pooled left.new right.now result.bags }
{
    let old = bags[i];
    if bag::is_empty(old) {
        return Drawn { bags, value: None };
    }
    let taken = bag::take(old, left, right, values);
    let rest = taken.bag;
    let mut after = bags;
    after[i] = rest;
    Drawn {
        bags: after,
        value: Some(taken.value),
    }
}

// Unites bag j into bag i, and leaves an empty bag at j.
pub fn unite(bags: [Bag; 4], i: usize, j: usize, left: &mut [u16], right: &mut [u16]) -> [Bag; 4]
    requires pooled { Pooled left.old right.old bags }
    requires i_bound { i < 4 }
    requires j_bound { j < 4 }
    requires differ { i ≢ j }
    ensures { Pooled left.new right.new result }
{
    let first = bags[i];
    let second = bags[j];
    let mut after = bags;
    after[i] = bag::union(first, second, left, right);
    after[j] = bag::empty();
    after
}

// Splits bag i, its second half into bag j, where j is empty.
pub fn divide(bags: [Bag; 4], i: usize, j: usize, left: &mut [u16], right: &mut [u16]) -> [Bag; 4]
    requires pooled { Pooled left.old right.old bags }
    requires i_bound { i < 4 }
    requires j_bound { j < 4 }
    requires differ { i ≢ j }
    ensures { Pooled left.new right.new result }
{
    let whole = bags[i];
    let other = bags[j];
    if bag::is_empty(other) {
        let halves = bag::split(whole, left, right);
        let first = halves.first;
        let second = halves.second;
        let mut after = bags;
        after[i] = first;
        after[j] = second;
        return after;
    }
    bags
}

// Inserts `count` numbers from `first` on into bag i, as far as nodes are free.
pub fn fill(
    bags: [Bag; 4],
    i: usize,
    first: u16,
    count: u16,
    left: &mut [u16],
    right: &mut [u16],
    values: &mut [u16],
) -> [Bag; 4]
    requires pooled { Pooled left.old right.old bags }
    requires left_in_bounds { length left.old ≤ length values.old }
    requires i_bound { i < 4 }
    ensures { Pooled left.new right.new result }
{
    let mut filled = bags;
    for k in 0..count {
        let value = first.wrapping_add(k);
        let after = put(filled, i, value, left, right, values);
        filled = after;
    }
    filled
}

// A new pool: `first` numbers from `from` on in bag 0, and the `second` numbers after them in bag 1.
pub fn two_filled(
    nodes: usize,
    from: u16,
    first: u16,
    second: u16,
    left: &mut [u16],
    right: &mut [u16],
    values: &mut [u16],
) -> [Bag; 4]
    requires { Room nodes left.old right.old values.old }
    ensures { Pooled left.new right.new result }
{
    let none = start(left, right, nodes);
    let one = fill(none, 0, from, first, left, right, values);
    let next = from.wrapping_add(first);
    fill(one, 1, next, second, left, right, values)
}

// Takes `count` numbers from bag i, and counts each.
pub fn drain(
    bags: [Bag; 4],
    i: usize,
    count: u16,
    left: &mut [u16],
    right: &[u16],
    values: &[u16],
    counts: &mut [u16],
) -> [Bag; 4]
    requires pooled { Pooled left.old right.now bags }
    requires left_in_bounds { length left.old ≤ length values.now }
    requires i_bound { i < 4 }
    ensures { Pooled left.new right.now result }
{
    let mut rest = bags;
    for _ in 0..count {
        let drawn = draw(rest, i, left, right, values);
        rest = drawn.bags;
        if let Some(value) = drawn.value {
            raise(counts, usize::from(value));
        }
    }
    rest
}
