// Every lent list one short, at its need and longer, for one graph.
use crate::plans::Plan;
use crate::requests::{Lengths, needs};
use testkit::random::{below, leap};
use testkit::words::extra;

const VERTICES: u16 = 37;

const EDGES: u16 = 101;

const WORKERS: u16 = 8;

// Enough full rounds to finish.
const SCHEDULE_LENGTH: u32 = 2700;

// Each list alone short among lists at their need, and among longer ones; all at their need; all
// longer; then drawn ones.
pub const COMBINATIONS: u16 = 120;

// What a list has: 0 for one place short, 1 for its need, 2 for six places more than one short.
fn choice(combination: u16, list: u16) -> u16 {
    if combination < 9 {
        return if combination == list { 0 } else { 1 };
    }
    if combination < 18 {
        return if combination - 9 == list { 0 } else { 2 };
    }
    if combination < 20 {
        return combination - 17;
    }
    let drawn = below(leap(u64::from(combination) * 9 + u64::from(list)), 16);
    if drawn == 0 { 0 } else { 1 + drawn % 2 }
}

// The length of a list with this need.
fn length(need: usize, combination: u16, list: u16) -> usize {
    let longer = need.wrapping_add(extra(choice(combination, list)));
    longer.wrapping_sub(1)
}

pub fn lent(combination: u16) -> Lengths {
    let need = needs(VERTICES, EDGES, WORKERS, 0);
    Lengths {
        offsets: length(need.offsets, combination, 0),
        targets: length(need.targets, combination, 1),
        marks: length(need.marks, combination, 2),
        distances: length(need.distances, combination, 3),
        parents: length(need.parents, combination, 4),
        histogram: length(need.histogram, combination, 5),
        left: length(need.left, combination, 6),
        right: length(need.right, combination, 7),
        values: length(need.values, combination, 8),
    }
}

// 20 where one of the lists is one short.
pub fn expected(combination: u16) -> usize {
    let is_short = (0..9).any(|list| choice(combination, list) == 0);
    if is_short { 20 } else { 0 }
}

// The graph and the schedule.
pub fn one_plan() -> Plan {
    Plan {
        vertices: VERTICES,
        edges: EDGES,
        source: 0,
        workers: WORKERS,
        length: SCHEDULE_LENGTH,
        mixture: 0,
        seed: 20,
    }
}
