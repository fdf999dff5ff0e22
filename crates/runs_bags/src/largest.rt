// The largest bag, of 32,768 numbers, in lists of 32,769 places: filled, emptied; and made of two of
// half its size, which it is split into again.
ghost use Rattle.bag.specs.Promises.{Pooled};
ghost use Rattle.bagkit.specs.Family.{Room};

use bag::Bag;
use bagkit::contents::are_parts;
use bagkit::counts::{add_nodes, are_ones};
use bagkit::family;
use bagkit::walk::{filled, free_nodes};
use std::io;
use testkit::group::Tally;
use testkit::words::{at, first};

const MOST: u16 = 32768;

const HALF: u16 = 16384;

// Whether the first two bags have the slots and the numbers given, all below 32,768 once.
fn holds_all(
    bags: [Bag; 4],
    first: usize,
    second: usize,
    left: &[u16],
    right: &[u16],
    values: &[u16],
) -> bool {
    let mut nodes = [0u16; 32768];
    let mut found = [0u16; 32769];
    let slots = (filled(bags[0]) == first) & (filled(bags[1]) == second);
    slots
        & are_parts(
            bags,
            usize::from(MOST),
            first,
            second,
            left,
            right,
            values,
            &mut nodes,
            &mut found,
        )
}

// Whether all nodes are free, each once.
fn is_free(left: &[u16]) -> bool {
    let mut nodes = [0u16; 32769];
    let mut met = [0u16; 32769];
    let count = free_nodes(left, &mut nodes);
    add_nodes(&mut met, first(&nodes, count));
    (count == usize::from(MOST)) & are_ones(&met[1..])
}

// A new pool with all numbers in bag 0.
fn full_bag(left: &mut [u16], right: &mut [u16], values: &mut [u16]) -> [Bag; 4]
    requires { Room 32768 left.old right.old values.old }
    ensures { Pooled left.new right.new result }
{
    let none = family::start(left, right, 32768);
    family::fill(none, 0, 0, MOST, left, right, values)
}

// All into one bag, which leaves no node free, and out again.
fn one_bag(left: &mut [u16], right: &mut [u16], values: &mut [u16]) -> Tally
    requires { Room 32768 left.old right.old values.old }
{
    let mut found = [0u16; 32769];
    let full = full_bag(left, right, values);
    let held = (at(left, 0) == 0) & holds_all(full, 32768, 0, left, right, values);
    let rest = family::drain(full, 0, MOST, left, right, values, &mut found);
    let out = bag::is_empty(rest[0]) & are_ones(first(&found, usize::from(MOST)));
    Tally::new().with(held).with(out).with(is_free(left))
}

// Two halves, united and split again.
fn two_bags(left: &mut [u16], right: &mut [u16], values: &mut [u16]) -> Tally
    requires { Room 32768 left.old right.old values.old }
{
    let two = family::two_filled(32768, 0, HALF, HALF, left, right, values);
    let before = holds_all(two, 16384, 16384, left, right, values);
    let whole = family::unite(two, 0, 1, left, right);
    let united = holds_all(whole, 32768, 0, left, right, values);
    let halves = family::divide(whole, 0, 1, left, right);
    let split = holds_all(halves, 16384, 16384, left, right, values);
    Tally::new().with(before).with(united).with(split)
}

pub fn run(rt: &impl Print) -> io::Result<()> {
    let mut left = [0u16; 32769];
    let mut right = [0u16; 32769];
    let mut values = [0u16; 32769];
    let one = one_bag(&mut left, &mut right, &mut values);
    let two = two_bags(&mut left, &mut right, &mut values);
    one.and(two).print(rt, "largest bag")
}
