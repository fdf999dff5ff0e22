// The largest files that may be read, and the smallest that are too large, each of the length that
// its words ask for, and the lists at their need.
use crate::drawn;
use std::io;
use testkit::group::{Tally, all};
use testkit::reading::needs;

// How many vertices and edges.
const READ: [(u16, u16); 4] = [(1, 0), (4096, 0), (1, 32768), (4096, 32768)];

const REFUSED: [(u16, u16); 7] = [
    (0, 0),
    (0, 32768),
    (4097, 0),
    (4097, 32768),
    (1, 32769),
    (4096, 32769),
    (4097, 32769),
];

// Whether files of these sizes are answered with the number.
fn answered(sizes: &[(u16, u16)], number: usize) -> Tally {
    all(sizes.iter(), |(vertices, edges)| {
        drawn::is_right(*vertices, *edges, needs(*vertices, *edges), number)
    })
}

pub fn run(rt: &impl Print) -> io::Result<()> {
    answered(&READ, 0).print(rt, "sizes that are read")?;
    answered(&REFUSED, 2).print(rt, "sizes that are refused")
}
