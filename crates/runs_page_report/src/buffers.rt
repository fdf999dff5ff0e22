// The call in the program's buffers: the longest input that can be accepted, shorter ones, and these
// with bytes behind them, of which the input buffer has as many as it has places.
use crate::drawn::{Task, is_done};
use checkkit::plans::sized;
use checkkit::results::Kind;

// n, m, the count, bytes behind the input, the number.
pub const CASES: [[u16; 5]; 9] = [
    // the longest input; with a byte behind it the input buffer is full
    [4096, 32768, 4096, 0, 0],
    [4096, 32768, 4096, 1, 1],
    // more bytes are said to be read than the input buffer has places: all of it
    [4096, 32768, 4096, 2, 1],
    [4096, 32768, 4096, 60000, 1],
    // shorter inputs: what stands behind them in the buffer is not read
    [1, 0, 1, 0, 0],
    [1, 0, 1, 1, 1],
    [51, 300, 51, 0, 0],
    [4096, 32767, 4096, 0, 0],
    [4096, 32767, 4096, 5, 1],
];

pub fn is_right(row: &[u16; 5]) -> bool {
    let [vertices, edges, count, more, number] = *row;
    is_done(Task {
        plan: sized(vertices, edges),
        path: 0,
        kind: Kind::Right,
        count,
        more: usize::from(more),
        number: Some(number),
        in_buffers: true,
    })
}
