// Distances and parents that a search left, compared vertex by vertex with the distances of a queue
// search.
use testkit::sample::after;
use testkit::words::at;

// An unset distance or parent.
pub const UNSET: u16 = 65535;

// What the labels are judged by: n, the source, the layer d, and whether the search was finished.
#[derive(Clone, Copy)]
pub struct View {
    pub vertices: u16,
    pub source: u16,
    pub layer: usize,
    pub is_finished: bool,
}

// Whether all labels so far are right, and a number made of all parents so far.
#[derive(Clone, Copy)]
pub struct Judged {
    pub right: bool,
    pub digest: u64,
}

impl Judged {
    // One vertex more.
    fn with(self, distance: u16, parent: u16, right: bool) -> Self {
        let digest = self.digest % 2147483647 * 31 + u64::from(distance);
        Judged {
            right: self.right & right,
            digest: digest % 2147483647 * 31 + u64::from(parent),
        }
    }
}

// Whether there is an edge from one vertex to the other.
pub fn has_edge(rows: &[u16], row_targets: &[u16], from: u16, to: u16) -> bool {
    (at(rows, from)..at(rows, after(from))).any(|edge| at(row_targets, edge) == to)
}

// Whether a vertex may have an unset distance: its parent is unset too, and the source does not reach
// it, or the search goes on and d is still below its distance.
fn may_be_unset(view: View, parent: u16, wanted: u16) -> bool {
    let is_beyond = !view.is_finished && view.layer < usize::from(wanted);
    parent == UNSET && (wanted == UNSET || is_beyond)
}

// Whether the parent is one nearer and has an edge to the vertex.
fn is_parent(
    view: View,
    parent: u16,
    vertex: u16,
    wanted: &[u16],
    rows: &[u16],
    row_targets: &[u16],
) -> bool {
    let is_nearer = after(at(wanted, parent)) == at(wanted, vertex);
    parent < view.vertices && is_nearer && has_edge(rows, row_targets, parent, vertex)
}

// Whether both labels of one vertex are right. A distance is at most d + 1. Until the finish a vertex
// may have a distance and still no parent.
fn is_right(
    view: View,
    vertex: u16,
    distance: u16,
    parent: u16,
    wanted: &[u16],
    rows: &[u16],
    row_targets: &[u16],
) -> bool {
    let right = at(wanted, vertex);
    if distance == UNSET {
        return may_be_unset(view, parent, right);
    }
    if distance != right {
        return false;
    }
    if vertex == view.source {
        return parent == vertex;
    }
    if view.layer.wrapping_add(1) < usize::from(distance) {
        return false;
    }
    if parent == UNSET {
        return !view.is_finished;
    }
    is_parent(view, parent, vertex, wanted, rows, row_targets)
}

// Whether the first n labels are right. `wanted` has the distances.
pub fn judge(
    view: View,
    distances: &[u16],
    parents: &[u16],
    wanted: &[u16],
    rows: &[u16],
    row_targets: &[u16],
) -> Judged {
    let mut judged = Judged {
        right: true,
        digest: 0,
    };
    for vertex in 0..view.vertices {
        let distance = at(distances, vertex);
        let parent = at(parents, vertex);
        let right = is_right(view, vertex, distance, parent, wanted, rows, row_targets);
        judged = judged.with(distance, parent, right);
    }
    judged
}
