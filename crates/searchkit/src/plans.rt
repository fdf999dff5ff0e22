// What is drawn for a search, and how the search is judged by a queue search of the same graph.
use crate::counts::{bound, times};
use crate::labels::{Judged, View};
use crate::queue::Reach;
use crate::requests::{Lengths, Request, Seen};
use crate::{labels, queue};
use testkit::sample::file_length;

// What is drawn: the graph's size, the source, the workers, the schedule's length and its mixture.
#[derive(Clone, Copy)]
pub struct Plan {
    pub vertices: u16,
    pub edges: u16,
    pub source: u16,
    pub workers: u16,
    pub length: u32,
    pub mixture: u16,
    pub seed: u64,
}

// The moves of a worker that does all the work: it takes every reached vertex, looks at every
// reached edge, and marks, names and stows every vertex but the source.
fn moves(reach: Reach) -> usize {
    let labels = 4 * usize::from(reach.vertices) + usize::from(reach.edges);
    labels.wrapping_sub(3)
}

// The fewest effective events of a finished search: the moves, and a close for each layer.
fn fewest(reach: Reach) -> usize {
    moves(reach).wrapping_add(usize::from(reach.depth) + 1)
}

// With full rounds alone worker 0 moves once in each, and the last layer closes in the last.
fn is_exact(seen: Seen, plan: Plan, reach: Reach) -> bool {
    let used = times(plan.workers.wrapping_add(1), moves(reach));
    if (plan.length as usize) < used {
        return seen.number == 21;
    }
    (seen.number == 0) & (seen.used == used) & (seen.effective == fewest(reach))
}

// Whether the answer of a search that was played is within its bounds.
fn is_within(seen: Seen, plan: Plan, reach: Reach) -> bool {
    let most = bound(plan.vertices, plan.edges, plan.workers);
    if (seen.effective > seen.used) | (seen.effective > most) {
        return false;
    }
    let depth = usize::from(reach.depth);
    if seen.number == 21 {
        return (seen.used == plan.length as usize) & (seen.layer <= depth);
    }
    let used = seen.used <= plan.length as usize;
    used & (seen.layer == depth) & (seen.effective >= fewest(reach))
}

// Whether the answer is right, as far as the graph and the schedule's length say.
fn is_answer(seen: Seen, plan: Plan, reach: Reach) -> bool {
    if plan.mixture == 0 {
        return is_exact(seen, plan, reach) & is_within(seen, plan, reach);
    }
    is_within(seen, plan, reach)
}

pub fn request_of(plan: Plan, lengths: Lengths) -> Request {
    Request {
        source: plan.source,
        workers: plan.workers,
        vertices: plan.vertices,
        edges: plan.edges,
        file: file_length(plan.vertices, plan.edges),
        schedule: plan.length as usize,
        lengths,
    }
}

// What the labels are judged by.
fn view_of(seen: Seen, plan: Plan) -> View {
    View {
        vertices: plan.vertices,
        source: plan.source,
        layer: seen.layer,
        is_finished: seen.number == 0,
    }
}

// A queue search, and the answer and labels of a search that was played judged by it.
pub fn judge(
    seen: Seen,
    plan: Plan,
    distances: &[u16],
    parents: &[u16],
    rows: &[u16],
    row_targets: &[u16],
) -> Judged {
    let mut wanted = [65535u16; 4102];
    let mut room = [0u16; 4102];
    let reach = queue::search(
        plan.source,
        plan.vertices,
        plan.edges,
        rows,
        row_targets,
        &mut wanted,
        &mut room,
    );
    let judged = labels::judge(
        view_of(seen, plan),
        distances,
        parents,
        &wanted,
        rows,
        row_targets,
    );
    Judged {
        right: judged.right & is_answer(seen, plan, reach),
        digest: judged.digest,
    }
}
