// Graphs of a plan: drawn ones, and paths.
use crate::plans::Plan;
use searchkit::paths::line;
use testkit::sample;

// Draws a graph and makes a file of it; a path of this many edges takes the place of its first ones.
// `order` is working room.
pub fn draw(
    edges: u16,
    plan: Plan,
    file: &mut [u8],
    sources: &mut [u16],
    row_targets: &mut [u16],
    rows: &mut [u16],
    order: &mut [u16],
) {
    sample::draw(
        sources,
        row_targets,
        rows,
        plan.vertices,
        plan.edges,
        plan.seed,
    );
    line(edges, sources, row_targets, rows);
    sample::encode_shuffled(
        file,
        plan.vertices,
        plan.edges,
        sources,
        row_targets,
        order,
        plan.seed,
    );
}
