// Drawn schedules, each cut after every one of its first bytes: what a search holds after each event.
// The graph has four layers of three vertices behind the source, and an edge from each vertex to all
// of the next layer: so workers often have the same vertex in hand, and mark it one after the other.
use crate::plans::Plan;
use crate::requests::{Lengths, needs};
use testkit::random::leap;
use testkit::sample::encode_shuffled;
use testkit::words::put;

// Each number of workers from two on with each mixture but full rounds alone, cut at each place.
pub const CASES: u16 = 11200;

const CUTS: u16 = 400;

const VERTICES: u16 = 13;

const EDGES: u16 = 30;

// The target of an edge. Three edges lie behind each other in a row, to the three vertices of the layer
// behind their source's.
fn target(edge: u16) -> u16 {
    let source = edge / 3;
    let layer = (source + 2) / 3;
    layer * 3 + edge % 3 + 1
}

// The edges, in the order of their sources.
fn make_edges(sources: &mut [u16], row_targets: &mut [u16]) {
    for edge in 0..EDGES {
        put(sources, edge, edge / 3);
        put(row_targets, edge, target(edge));
    }
}

// Where the edges of a vertex start; the last layer has none.
fn start(vertex: u16) -> u16 {
    if vertex < 10 { 3 * vertex } else { EDGES }
}

// Where every row starts, and the end of the last.
fn make_rows(rows: &mut [u16]) {
    for vertex in 0..=VERTICES {
        put(rows, vertex, start(vertex));
    }
}

// The graph and its file. `order` is working room.
pub fn make_graph(
    file: &mut [u8],
    sources: &mut [u16],
    row_targets: &mut [u16],
    rows: &mut [u16],
    order: &mut [u16],
) {
    make_edges(sources, row_targets);
    make_rows(rows);
    encode_shuffled(file, VERTICES, EDGES, sources, row_targets, order, 1);
}

// A case's search: the graph, and so much of a schedule.
pub fn plan_of(case: u16) -> Plan {
    let round = case / CUTS;
    Plan {
        vertices: VERTICES,
        edges: EDGES,
        source: 0,
        workers: round % 7 + 2,
        length: u32::from(case % CUTS),
        mixture: round % 4 + 1,
        seed: leap(u64::from(round) + 2000),
    }
}

// The lists are at their need, or up to three places longer.
pub fn lent(plan: Plan, case: u16) -> Lengths {
    needs(plan.vertices, plan.edges, plan.workers, case % 4)
}
