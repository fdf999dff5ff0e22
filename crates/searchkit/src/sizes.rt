// The largest graphs, and the smallest that are too large; the largest graph of all with eight
// workers. The lists are at their need.
use crate::plans::Plan;
use crate::requests::{Lengths, needs};
use testkit::words::row_of;

pub const ROWS: u16 = 11;

// n, m, workers, the schedule's length in thousands, its mixture, the number.
const CASES: [[u16; 6]; 11] = [
    [1, 0, 1, 1, 0, 0],
    [4096, 0, 8, 1, 0, 0],
    [1, 32768, 2, 100, 0, 0],
    [4096, 32768, 1, 100, 0, 0],
    [4096, 32768, 8, 450, 0, 0],
    [4096, 32768, 8, 450, 3, 0],
    [4096, 32768, 8, 450, 1, 0],
    [4096, 32768, 8, 40, 3, 21],
    [4097, 0, 1, 1, 0, 2],
    [1, 32769, 1, 1, 0, 2],
    [4097, 32769, 8, 1, 0, 2],
];

// The plan of a case.
pub fn plan_of(row: u16) -> Plan {
    let [vertices, edges, workers, thousands, mixture, _] = row_of(&CASES, row);
    Plan {
        vertices,
        edges,
        source: 0,
        workers,
        length: u32::from(thousands) * 1000,
        mixture,
        seed: 77,
    }
}

// The lists are at their need.
pub fn lent(plan: Plan) -> Lengths {
    needs(plan.vertices, plan.edges, plan.workers, 0)
}

// The number of a case.
pub fn number(row: u16) -> usize {
    let [.., number] = row_of(&CASES, row);
    usize::from(number)
}
