// Right results of every size that the program takes, and inputs that are too large or too long.
use crate::drawn::{Task, is_done};
use checkkit::plans::sized;
use checkkit::results::Kind;

// n, m, how many edges are a path, the count, bytes behind the input, the number.
pub const CASES: [[u16; 6]; 22] = [
    [1, 0, 0, 1, 0, 0],
    [49, 48, 48, 49, 0, 0],
    [50, 49, 49, 50, 0, 0],
    [51, 50, 50, 51, 0, 0],
    [100, 99, 99, 100, 0, 0],
    [101, 300, 0, 101, 0, 0],
    [4095, 4094, 4094, 4095, 0, 0],
    [4096, 0, 0, 4096, 0, 0],
    [4096, 4095, 4095, 4096, 0, 0],
    [4096, 32768, 0, 4096, 0, 0],
    [1, 32768, 0, 4096, 0, 0],
    // fewer distances than vertices
    [4096, 32768, 0, 4095, 0, 20],
    [51, 50, 50, 50, 0, 20],
    // more distances than the program's lists have
    [4096, 32768, 0, 4097, 0, 20],
    // n or m outside its size
    [4097, 0, 0, 4096, 0, 2],
    [1, 32769, 0, 4096, 0, 2],
    [4097, 32769, 0, 4096, 0, 2],
    // bytes behind the file
    [1, 0, 0, 1, 1, 1],
    [4096, 32768, 0, 4096, 1, 1],
    [4096, 32768, 0, 4096, 2, 1],
    [4096, 32768, 0, 4096, 60000, 1],
    [4096, 4095, 4095, 4096, 2, 1],
];

pub fn is_right(row: &[u16; 6]) -> bool {
    let [vertices, edges, path, count, more, number] = *row;
    is_done(Task {
        plan: sized(vertices, edges),
        path,
        kind: Kind::Right,
        count,
        more: usize::from(more),
        number: Some(number),
        in_buffers: false,
    })
}
