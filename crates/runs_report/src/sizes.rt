// The largest inputs that the program takes, and inputs that are longer.
use crate::drawn;
use searchkit::plans::Plan;

// n, m, workers, the schedule's length, its mixture, bytes behind the input, the number.
pub const CASES: [[u16; 7]; 14] = [
    [512, 2048, 1, 8192, 0, 0, 0],
    [512, 2048, 8, 8192, 0, 0, 21],
    [512, 2048, 8, 8192, 3, 0, 21],
    [512, 2048, 8, 8192, 2, 0, 21],
    [512, 2048, 8, 0, 0, 0, 21],
    [512, 700, 8, 8192, 3, 0, 0],
    [512, 0, 8, 8192, 1, 0, 0],
    [1, 2048, 8, 8192, 0, 0, 21],
    [1, 0, 8, 8192, 2, 0, 0],
    [512, 2048, 8, 8192, 0, 1, 1],
    [512, 2048, 8, 8192, 0, 2, 1],
    [512, 2048, 8, 8192, 0, 2582, 1],
    [512, 2048, 8, 8192, 0, 52582, 1],
    [1, 0, 1, 2, 0, 65535, 1],
];

pub fn is_right(row: &[u16; 7]) -> bool {
    let [vertices, edges, workers, length, mixture, more, number] = *row;
    let plan = Plan {
        vertices,
        edges,
        source: 0,
        workers,
        length: u32::from(length),
        mixture,
        seed: 77,
    };
    drawn::run(plan, more).is_some_and(|seen| seen.number == usize::from(number))
}
