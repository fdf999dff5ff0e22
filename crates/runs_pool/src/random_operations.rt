// Random operations on four bags of one pool, each compared with plain counts: how often each number
// is in each bag. After a union, a split, and now and then all bags and the free chain are walked
// and compared in full.
ghost use Rattle.std.specs.Prelude.{◌≡◌, ◌<◌, ◌≤◌, IfSome, length, ◌≢◌};
ghost use Rattle.bag.specs.Promises.{Pooled};
ghost use Rattle.bagkit.specs.Family.{Room};

use bag::Bag;
use bagkit::contents::add_bag;
use bagkit::counts::{add_nodes, are_ones, is_sum, lower, raise};
use bagkit::family;
use bagkit::walk::free_nodes;
use std::io;
use testkit::group::Tally;
use testkit::random::{below, leap, next};
use testkit::words::{at, first as first_places, total};

const POOL_NODES: usize = 300;

const ROW_PLACES: usize = 50;

const ROUND_COUNT: u16 = 6000;

// What an operation does.
#[derive(Clone, Copy)]
pub enum Kind {
    Insert,
    Take,
    Unite,
    Split,
}

// The bags after an operation, and whether it did what it must.
#[derive(Clone, Copy)]
pub struct Outcome {
    pub bags: [Bag; 4],
    pub right: bool,
}

// Which bags and which number an operation is for.
#[derive(Clone, Copy)]
pub struct Choice {
    pub kind: Kind,
    pub i: usize,
    pub j: usize,
    pub value: u16,
}

// How often each number is in each bag.
type Counts = [[u16; ROW_PLACES]; 4];

// Whether the tests of a bag say what the counts say.
fn is_tested(bag: Bag, count: usize) -> bool {
    let empty = bag::is_empty(bag) == (count == 0);
    let two = bag::at_least_two(bag) == (2 <= count);
    empty & two
}

// Whether the tests of all bags do, and a node is free just where the counts leave one.
fn are_tested(bags: [Bag; 4], left: &[u16], counts: &Counts) -> bool {
    let mut rows = bags.iter().zip(counts);
    let tested = rows.all(|(bag, row)| is_tested(*bag, total(row)));
    let all = counts
        .iter()
        .fold(0, |sum: usize, row| sum.wrapping_add(total(row)));
    tested & ((at(left, 0) == 0) == (all == POOL_NODES))
}

// Whether a walk over all bags finds the numbers that are counted, and bags and free chain together
// have every node once.
fn are_counted(
    bags: [Bag; 4],
    left: &[u16],
    right: &[u16],
    values: &[u16],
    counts: &Counts,
) -> bool {
    let mut nodes = [0u16; 320];
    let mut met = [0u16; 301];
    let mut all: usize = 0;
    let mut same = true;
    for (bag, row) in bags.iter().zip(counts) {
        let mut found = [0u16; ROW_PLACES];
        let count = add_bag(*bag, left, right, values, &mut nodes, &mut found);
        add_nodes(&mut met, first_places(&nodes, count));
        all = all.wrapping_add(count);
        same &= found == *row;
    }
    let free = free_nodes(left, &mut nodes);
    add_nodes(&mut met, first_places(&nodes, free));
    let whole = all.wrapping_add(free) == POOL_NODES;
    whole & are_ones(&met[1..]) & same
}

// Inserts the number into bag i, unless the pool is full.
fn insert(
    bags: [Bag; 4],
    i: usize,
    value: u16,
    left: &mut [u16],
    right: &mut [u16],
    values: &mut [u16],
    counts: &mut Counts,
) -> Outcome
    requires pooled { Pooled left.old right.old bags }
    requires left_in_bounds { length left.old ≤ length values.old }
    requires i_bound { i < 4 }
    ensures { Pooled left.new right.new result.bags }
{
    if at(left, 0) == 0 {
        return Outcome { bags, right: true };
    }
    raise(&mut counts[i], usize::from(value));
    let after = family::put(bags, i, value, left, right, values);
    Outcome {
        bags: after,
        right: true,
    }
}

// Takes a number from bag i, unless it is empty: the bag must have it.
fn take(
    bags: [Bag; 4],
    i: usize,
    left: &mut [u16],
    right: &[u16],
    values: &[u16],
    counts: &mut Counts,
) -> Outcome
    requires pooled { Pooled left.old right.now bags }
    requires left_in_bounds { length left.old ≤ length values.now }
    requires i_bound { i < 4 }
    ensures { Pooled left.new right.now result.bags }
{
    let drawn = family::draw(bags, i, left, right, values);
    let after = drawn.bags;
    let is_held = match drawn.value {
        None => true,
        Some(value) => lower(&mut counts[i], usize::from(value)),
    };
    Outcome {
        bags: after,
        right: is_held,
    }
}

// Unites bag j into bag i.
fn unite(
    bags: [Bag; 4],
    i: usize,
    j: usize,
    left: &mut [u16],
    right: &mut [u16],
    counts: &mut Counts,
) -> Outcome
    requires pooled { Pooled left.old right.old bags }
    requires i_bound { i < 4 }
    requires j_bound { j < 4 }
    requires differ { i ≢ j }
    ensures { Pooled left.new right.new result.bags }
{
    let poured = counts[j];
    for (count, more) in counts[i].iter_mut().zip(&poured) {
        *count = count.wrapping_add(*more);
    }
    counts[j] = [0; ROW_PLACES];
    let after = family::unite(bags, i, j, left, right);
    Outcome {
        bags: after,
        right: true,
    }
}

// A bag other than i that is empty by the counts.
fn empty_bag(counts: &Counts, i: usize) -> Option<usize>
    requires { i < 4 }
    ensures { IfSome result (λ j. (j < 4) × (i ≢ j)) }
{
    for k in 1..4 {
        let j = (i + k) % 4;
        if total(&counts[j]) == 0 {
            return Some(j);
        }
    }
    None
}

// Whether the bags i and j have what bag i had by the counts, and share it evenly. The counts are
// then what was found in them.
fn is_split(
    first: Bag,
    second: Bag,
    i: usize,
    j: usize,
    left: &[u16],
    right: &[u16],
    values: &[u16],
    counts: &mut Counts,
) -> bool
    requires i_bound { i < 4 }
    requires j_bound { j < 4 }
{
    let mut nodes = [0u16; 320];
    let mut half = [0u16; ROW_PLACES];
    let mut other = [0u16; ROW_PLACES];
    let a = add_bag(first, left, right, values, &mut nodes, &mut half);
    let b = add_bag(second, left, right, values, &mut nodes, &mut other);
    let whole = total(&counts[i]);
    let sizes = (a == whole - whole / 2) & (b == whole / 2);
    let same = is_sum(&counts[i], &half, &other);
    counts[i] = half;
    counts[j] = other;
    sizes & same
}

// Splits bag i into itself and an empty one, where it has at least two and there is an empty one.
fn split(
    bags: [Bag; 4],
    i: usize,
    left: &mut [u16],
    right: &mut [u16],
    values: &[u16],
    counts: &mut Counts,
) -> Outcome
    requires pooled { Pooled left.old right.old bags }
    requires i_bound { i < 4 }
    ensures { Pooled left.new right.new result.bags }
{
    let Some(j) = empty_bag(counts, i) else {
        return Outcome { bags, right: true };
    };
    let old = bags[i];
    if !bag::at_least_two(old) {
        return Outcome { bags, right: true };
    }
    let after = family::divide(bags, i, j, left, right);
    let first = after[i];
    let second = after[j];
    Outcome {
        bags: after,
        right: is_split(first, second, i, j, left, right, values, counts),
    }
}

// Mostly inserts for a thousand rounds, then mostly takes, and so on.
fn drawn_kind(round: u16, seed: u64) -> Kind {
    let drawn = below(seed, 16);
    if drawn < 2 {
        return Kind::Unite;
    }
    if drawn < 4 {
        return Kind::Split;
    }
    if (drawn < 13) == (round / 1000 % 2 == 0) {
        Kind::Insert
    } else {
        Kind::Take
    }
}

// Draws an operation: bags i and j are different ones of the four.
fn drawn_choice(round: u16, seed: u64) -> Choice
    ensures i_bound { result.i < 4 }
    ensures j_bound { result.j < 4 }
    ensures differ { result.i ≢ result.j }
{
    let i = usize::from(below(seed, 4) % 4);
    let further = usize::from(below(next(seed), 3) % 3);
    Choice {
        kind: drawn_kind(round, leap(seed)),
        i,
        j: (i + 1 + further) % 4,
        value: below(next(next(seed)), ROW_PLACES as u16),
    }
}

// One operation.
fn operate(
    bags: [Bag; 4],
    choice: Choice,
    left: &mut [u16],
    right: &mut [u16],
    values: &mut [u16],
    counts: &mut Counts,
) -> Outcome
    requires pooled { Pooled left.old right.old bags }
    requires left_in_bounds { length left.old ≤ length values.old }
    requires i_bound { choice.i < 4 }
    requires j_bound { choice.j < 4 }
    requires differ { choice.i ≢ choice.j }
    ensures { Pooled left.new right.new result.bags }
{
    match choice.kind {
        Kind::Insert => insert(bags, choice.i, choice.value, left, right, values, counts),
        Kind::Take => take(bags, choice.i, left, right, values, counts),
        Kind::Unite => unite(bags, choice.i, choice.j, left, right, counts),
        Kind::Split => split(bags, choice.i, left, right, values, counts),
    }
}

// Whether bags and counts agree: by the tests, and in full after a union or a split and every 16th
// round.
fn is_right(
    bags: [Bag; 4],
    kind: Kind,
    round: u16,
    left: &[u16],
    right: &[u16],
    values: &[u16],
    counts: &Counts,
) -> bool {
    let tested = are_tested(bags, left, counts);
    if matches!(kind, Kind::Insert | Kind::Take) && round % 16 != 0 {
        return tested;
    }
    tested & are_counted(bags, left, right, values, counts)
}

// A round: an operation is drawn, done and compared.
fn play(
    bags: [Bag; 4],
    round: u16,
    seed: u64,
    left: &mut [u16],
    right: &mut [u16],
    values: &mut [u16],
    counts: &mut Counts,
) -> Outcome
    requires pooled { Pooled left.old right.old bags }
    requires left_in_bounds { length left.old ≤ length values.old }
    ensures { Pooled left.new right.new result.bags }
{
    let choice = drawn_choice(round, seed);
    let done = operate(bags, choice, left, right, values, counts);
    let after = done.bags;
    let same = is_right(after, choice.kind, round, left, right, values, counts);
    Outcome {
        bags: after,
        right: done.right & same,
    }
}

// All rounds, one after the other. The counts are 0 before.
fn rounds(left: &mut [u16], right: &mut [u16], values: &mut [u16], counts: &mut Counts) -> Tally
    requires { Room 300 left.old right.old values.old }
{
    let mut bags = family::start(left, right, POOL_NODES);
    let mut tally = Tally::new();
    let mut seed: u64 = 21;
    for round in 0..ROUND_COUNT {
        seed = leap(seed);
        let done = play(bags, round, seed, left, right, values, counts);
        bags = done.bags;
        tally = tally.with(done.right);
    }
    tally
}

pub fn run(rt: &impl Print) -> io::Result<()> {
    let mut left = [0u16; 301];
    let mut right = [0u16; 301];
    let mut values = [0u16; 301];
    let mut counts = [[0u16; ROW_PLACES]; 4];
    rounds(&mut left, &mut right, &mut values, &mut counts).print(rt, "random operations")
}
