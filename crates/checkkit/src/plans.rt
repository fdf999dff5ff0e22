// What is drawn for a case: the graph, the source, and how long the lists are.
use searchkit::requests::{Lengths, needs};
use testkit::random::{below, leap, next};
use testkit::sample::after;
use testkit::words::extra;

// A graph's size, the source, and what it is drawn by.
#[derive(Clone, Copy)]
pub struct Plan {
    pub vertices: u16,
    pub edges: u16,
    pub source: u16,
    pub seed: u64,
}

// The combinations of lengths, and the one with all lists at their need.
pub const COMBINATIONS: u16 = 243;

pub const AT_NEED: u16 = 121;

// A graph of up to `most` vertices, with `least` edges and fewer than `more` besides.
fn drawn(start: u64, most: u16, least: u16, more: u16) -> Plan {
    let seed = leap(start);
    let second = next(seed);
    let third = next(second);
    let vertices = after(below(seed, most));
    Plan {
        vertices,
        edges: least.wrapping_add(below(second, more)),
        source: below(third, vertices),
        seed: leap(third),
    }
}

// A graph of up to 40 vertices and 120 edges; every second one has 80 edges or more.
pub fn small(case: u16) -> Plan {
    let start = u64::from(case) + 500;
    if case % 2 == 0 {
        drawn(start, 40, 0, 121)
    } else {
        drawn(start, 40, 80, 41)
    }
}

// A graph of up to 160 vertices and 480 edges.
pub fn medium(case: u16) -> Plan {
    drawn(u64::from(case) + 900, 160, 0, 481)
}

// A graph of this size, with source 0.
pub fn sized(vertices: u16, edges: u16) -> Plan {
    Plan {
        vertices,
        edges,
        source: 0,
        seed: 77,
    }
}

// The length of a list with this need: one short, at its need, or five places longer. The choice is a
// digit of a case's number, so an enum of it would be made here alone.
pub fn length(need: usize, choice: u16) -> usize {
    need.wrapping_add(extra(choice)).wrapping_sub(1)
}

// The combination's digits to the base 3 are the lists' choices.
pub fn lent(plan: Plan, combination: u16) -> Lengths {
    let need = needs(plan.vertices, plan.edges, 1, 0);
    Lengths {
        offsets: length(need.offsets, combination % 3),
        targets: length(need.targets, combination / 3 % 3),
        marks: length(need.marks, combination / 9 % 3),
        distances: length(need.distances, combination / 27 % 3),
        parents: length(need.parents, combination / 81 % 3),
        ..Lengths::default()
    }
}

// Whether a list is shorter than its need.
fn is_short(plan: Plan, lengths: Lengths) -> bool {
    let n = usize::from(plan.vertices);
    let m = usize::from(plan.edges);
    let rows = (lengths.offsets <= n) | (lengths.targets < m) | (lengths.marks < m);
    rows | (lengths.distances < n) | (lengths.parents < n)
}

// The number of a case: 2, 20, or the result's own.
pub fn number_of(plan: Plan, lengths: Lengths, res: usize) -> usize {
    if (plan.vertices > 4096) | (plan.edges > 32768) {
        return 2;
    }
    if is_short(plan, lengths) { 20 } else { res }
}
