// Bags of every size from 2 to 64, split: how many numbers each half has, and that all of them are
// there once.
ghost use Rattle.bagkit.specs.Family.{Room};

use bag::Bag;
use bagkit::contents::are_parts;
use bagkit::family;
use std::io;
use testkit::group::Tally;

// A new pool, the numbers below `count` in bag 0, and split into bags 0 and 1.
fn halves(count: u16, left: &mut [u16], right: &mut [u16], values: &mut [u16]) -> [Bag; 4]
    requires { Room 64 left.old right.old values.old }
{
    let none = family::start(left, right, 64);
    let whole = family::fill(none, 0, 0, count, left, right, values);
    family::divide(whole, 0, 1, left, right)
}

// Whether the numbers below `count` are split into so many and so many.
fn gives(count: u16, first: usize, second: usize) -> bool {
    let mut left = [0u16; 65];
    let mut right = [0u16; 65];
    let mut values = [0u16; 65];
    let mut nodes = [0u16; 65];
    let mut found = [0u16; 65];
    let bags = halves(count, &mut left, &mut right, &mut values);
    are_parts(
        bags,
        usize::from(count),
        first,
        second,
        &left,
        &right,
        &values,
        &mut nodes,
        &mut found,
    )
}

fn sizes() -> Tally {
    (2..=64).fold(Tally::new(), |tally, count| {
        let held = usize::from(count);
        tally.with(gives(count, held - held / 2, held / 2))
    })
}

pub fn run(rt: &impl Print) -> io::Result<()> {
    let known = gives(23, 12, 11);
    sizes().with(known).print(rt, "splits of every size")
}
