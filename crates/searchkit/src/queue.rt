// A plain search with one queue over the rows of a graph, apart from the library.
use crate::labels::UNSET;
use testkit::sample::after;
use testkit::words::{at, put};

// What the source reaches: how many vertices and edges, and the largest distance.
#[derive(Clone, Copy)]
pub struct Reach {
    pub vertices: u16,
    pub edges: u16,
    pub depth: u16,
}

// Writes the distance of every vertex that the source reaches; all are unset before. `queue` is
// working room.
pub fn search(
    source: u16,
    vertices: u16,
    edges: u16,
    rows: &[u16],
    row_targets: &[u16],
    distances: &mut [u16],
    queue: &mut [u16],
) -> Reach {
    let mut tail: u16 = 1;
    let mut looked: u16 = 0;
    put(distances, source, 0);
    put(queue, 0, source);
    for head in 0..vertices {
        if tail <= head {
            break;
        }
        let vertex = at(queue, head);
        let farther = after(at(distances, vertex));
        for edge in at(rows, vertex)..at(rows, after(vertex)).min(edges) {
            let target = at(row_targets, edge);
            if at(distances, target) == UNSET {
                put(distances, target, farther);
                put(queue, tail, target);
                tail = after(tail);
            }
            looked = after(looked);
        }
    }
    Reach {
        vertices: tail,
        edges: looked,
        depth: at(distances, at(queue, tail.wrapping_sub(1))),
    }
}
