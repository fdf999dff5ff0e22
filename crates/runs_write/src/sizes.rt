// The largest rows that may be written, and the smallest that are too large, with the lists at their
// need. What is written must be the file that the tests make of the same graph.
use crate::drawn;
use crate::writing::needs;
use std::io;
use testkit::group::{Tally, all};

// How many vertices and edges.
const WRITTEN: [(u16, u16); 4] = [(1, 0), (4096, 0), (1, 32768), (4096, 32768)];

const REFUSED: [(u16, u16); 5] = [(0, 0), (4097, 0), (4097, 32768), (1, 32769), (4096, 32769)];

// Whether rows of these sizes are answered with the number.
fn answered(sizes: &[(u16, u16)], number: usize) -> Tally {
    all(sizes.iter(), |(vertices, edges)| {
        drawn::is_right(*vertices, *edges, needs(*vertices, *edges), number)
    })
}

pub fn run(rt: &impl Print) -> io::Result<()> {
    answered(&WRITTEN, 0).print(rt, "sizes that are written")?;
    answered(&REFUSED, 11).print(rt, "sizes that are not written")
}
