// The order in which numbers come out again, which tells how the trees stand: which root a union
// keeps, and what a split and a take leave where. The lists are those that the definitions give
// (crate `pennant`, `case_order`).
ghost use Rattle.std.specs.Prelude.{◌<◌, ◌≤◌, length};
ghost use Rattle.bag.specs.Promises.{Pooled};
ghost use Rattle.bagkit.specs.Family.{Room};

use bag::Bag;
use bagkit::family;
use std::io;
use testkit::group::Tally;

// Whether the numbers of bag i come out as listed, and none is left.
fn comes_out(
    bags: [Bag; 4],
    i: usize,
    order: &[u16],
    left: &mut [u16],
    right: &[u16],
    values: &[u16],
) -> bool
    requires pooled { Pooled left.old right.now bags }
    requires left_in_bounds { length left.old ≤ length values.now }
    requires i_bound { i < 4 }
{
    let mut rest = bags;
    let mut same = true;
    for wanted in order {
        let drawn = family::draw(rest, i, left, right, values);
        rest = drawn.bags;
        same &= drawn.value == Some(*wanted);
    }
    same & bag::is_empty(rest[i])
}

// Whether the union of a bag with the numbers 1 to `first` and one with the `second` numbers after
// them comes out as listed.
fn united(
    first: u16,
    second: u16,
    order: &[u16],
    left: &mut [u16],
    right: &mut [u16],
    values: &mut [u16],
) -> bool
    requires { Room 16 left.old right.old values.old }
{
    let two = family::two_filled(16, 1, first, second, left, right, values);
    let whole = family::unite(two, 0, 1, left, right);
    comes_out(whole, 0, order, left, right, values)
}

// Whether bag i of the split of a bag with the numbers 1 to `count` comes out as listed.
fn split(
    count: u16,
    i: usize,
    order: &[u16],
    left: &mut [u16],
    right: &mut [u16],
    values: &mut [u16],
) -> bool
    requires room { Room 16 left.old right.old values.old }
    requires i_bound { i < 4 }
{
    let one = family::two_filled(16, 1, count, 0, left, right, values);
    let halves = family::divide(one, 0, 1, left, right);
    comes_out(halves, i, order, left, right, values)
}

// Unions in which every row of the adder is met.
fn unions() -> Tally {
    let mut left = [0u16; 17];
    let mut right = [0u16; 17];
    let mut values = [0u16; 17];
    let seven = [7, 5, 6, 1, 2, 3, 4];
    let threes = [1, 2, 4, 5, 3, 6];
    let more = [1, 2, 3, 4];
    let fewer = [2, 3, 1, 4];
    let eleven = [5, 10, 11, 1, 2, 3, 4, 6, 7, 8, 9];
    Tally::new()
        .with(united(7, 0, &seven, &mut left, &mut right, &mut values))
        .with(united(3, 3, &threes, &mut left, &mut right, &mut values))
        .with(united(3, 1, &more, &mut left, &mut right, &mut values))
        .with(united(1, 3, &fewer, &mut left, &mut right, &mut values))
        .with(united(5, 6, &eleven, &mut left, &mut right, &mut values))
}

// The two bags of a split.
fn halves() -> Tally {
    let mut left = [0u16; 17];
    let mut right = [0u16; 17];
    let mut values = [0u16; 17];
    let first = [9, 11, 1, 2, 3, 4];
    let second = [10, 5, 6, 7, 8];
    Tally::new()
        .with(split(11, 0, &first, &mut left, &mut right, &mut values))
        .with(split(11, 1, &second, &mut left, &mut right, &mut values))
}

pub fn run(rt: &impl Print) -> io::Result<()> {
    unions().and(halves()).print(rt, "order of taking")
}
