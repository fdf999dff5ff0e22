// Random graphs under random schedules of all mixtures, for every number of workers. Schedules are
// empty, spent, and long enough to finish with bytes left over.
use crate::events::MIXED;
use crate::plans::Plan;
use crate::requests::{Lengths, needs};
use testkit::random::{below, leap, next};

// Each workers' number with each mixture and each kind of length, 8 times.
pub const ROUNDS: u16 = 1280;

// The length: up to 2 bytes, up to 99, up to 999, or 6,000, by a digit of the round's number: an enum of
// it would be made here alone.
fn length_of(kind: u16, seed: u64) -> u32 {
    match kind {
        0 => u32::from(below(seed, 3)),
        1 => u32::from(below(seed, 100)),
        2 => u32::from(below(seed, 1000)),
        _ => 6000,
    }
}

// The round's graph, source and schedule.
fn drawn_plan(round: u16, seed: u64) -> Plan {
    let second = next(seed);
    let third = next(second);
    let fourth = next(third);
    let vertices = below(seed, 30) % 30 + 1;
    Plan {
        vertices,
        edges: below(second, 111),
        source: below(third, vertices),
        workers: round % 8 + 1,
        length: length_of(round / 40 % 4, fourth),
        mixture: round / 8 % MIXED,
        seed: leap(fourth),
    }
}

// The round's plan.
pub fn plan_of(round: u16) -> Plan {
    drawn_plan(round, leap(u64::from(round) + 1))
}

// The lists are at their need, or up to three places longer.
pub fn lent(plan: Plan, round: u16) -> Lengths {
    needs(plan.vertices, plan.edges, plan.workers, round / 8 % 4)
}
