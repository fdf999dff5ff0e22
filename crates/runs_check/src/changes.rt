// One vertex's labels changed, in every way that a kind says.
use crate::plans::Group;
use checkkit::plans::Plan;
use checkkit::results::UNSET;
use searchkit::labels::has_edge;
use std::ops::Range;
use testkit::random::{below, next};
use testkit::sample::after;
use testkit::words::at;

// How many kinds of changes each vertex has, and each edge.
const VERTEX_KINDS: u16 = 15;

const EDGE_KINDS: u16 = 3;

// The kind of a vertex's change that asks for edges.
const UNLINKED: u16 = 14;

// The new labels of a vertex.
#[derive(Clone, Copy)]
pub struct Change {
    pub vertex: u16,
    pub distance: u16,
    pub parent: u16,
}

// A graph that was drawn, with its file, its edges and rows, and the distances of a right result.
#[derive(Clone, Copy)]
pub struct Drawn<'a> {
    pub plan: Plan,
    pub file: &'a [u8],
    pub sources: &'a [u16],
    pub rows: &'a [u16],
    pub row_targets: &'a [u16],
    pub wanted: &'a [u16],
}

impl Drawn<'_> {
    // Whether this vertex is one nearer and has no edge to the other.
    fn is_unlinked(self, from: u16, to: u16) -> bool {
        let is_nearer = after(at(self.wanted, from)) == at(self.wanted, to);
        is_nearer && !has_edge(self.rows, self.row_targets, from, to)
    }

    // A vertex that is one nearer and has no edge to this one, the first from a drawn one on; unset
    // where there is none.
    fn unlinked(self, vertex: u16, start: u16) -> u16 {
        let mut others = (start..self.plan.vertices).chain(0..start);
        let found = others.find(|other| self.is_unlinked(*other, vertex));
        found.unwrap_or(UNSET)
    }

    // The same for the kind that asks for edges; for the others, which have no use for it, unset.
    fn unlinked_for(self, kind: u16, vertex: u16, start: u16) -> u16 {
        match kind {
            UNLINKED => self.unlinked(vertex, start),
            _ => UNSET,
        }
    }

    // A change of a vertex's labels: of the distance, of the parent, of both.
    fn of_vertex(self, case: u16, parents: &[u16]) -> Change {
        let Plan {
            vertices,
            source,
            seed,
            ..
        } = self.plan;
        let vertex = case / VERTEX_KINDS;
        let old = at(self.wanted, vertex);
        let parent = at(parents, vertex);
        let kind = case % VERTEX_KINDS;
        let drawn = below(next(seed.wrapping_add(u64::from(case))), vertices);
        let unlinked = self.unlinked_for(kind, vertex, drawn);
        let kinds = [
            // Another distance: one more, one less, unset, 65,534, 0, a number below n.
            (old.wrapping_add(1), parent),
            (old.wrapping_sub(1), parent),
            (UNSET, parent),
            (65534, parent),
            (0, parent),
            (drawn, parent),
            // Another parent: a drawn vertex, the vertex itself, n, 65,534, unset, the source.
            (old, drawn),
            (old, vertex),
            (old, vertices),
            (old, 65534),
            (old, UNSET),
            (old, source),
            // Both: unset; by a drawn parent; by a parent that is one nearer and has no edge.
            (UNSET, UNSET),
            (at(self.wanted, drawn).wrapping_add(1), drawn),
            (old, unlinked),
        ];
        let (distance, parent) = kinds[usize::from(kind)];
        Change {
            vertex,
            distance,
            parent,
        }
    }

    // A change by an edge.
    fn of_edge(self, case: u16) -> Change {
        let edge = case / EDGE_KINDS;
        let source = at(self.sources, edge);
        let target = at(self.row_targets, edge);
        let nearer = at(self.wanted, source);
        let kinds = [
            // The target gets both labels by it, which may be a longer path, or 0 from an unset source.
            (target, nearer.wrapping_add(1), source),
            // The target gets the parent alone.
            (target, at(self.wanted, target), source),
            // The source gets the target as its parent.
            (source, nearer, target),
        ];
        let (vertex, distance, parent) = kinds[usize::from(case % EDGE_KINDS)];
        Change {
            vertex,
            distance,
            parent,
        }
    }

    // A change of a group; whole results have none.
    pub fn change_of(self, group: Group, case: u16, parents: &[u16]) -> Option<Change> {
        match group {
            Group::Edges => Some(self.of_edge(case)),
            Group::Largest | Group::Vertices | Group::LongLists => {
                Some(self.of_vertex(case, parents))
            }
            _ => None,
        }
    }
}

// The change of one of the largest graphs: with 4,096 vertices, each kind at 0, 1, 4,094 and 4,095.
fn largest(case: u16) -> u16 {
    let place = case % 60;
    if place < 30 {
        place
    } else {
        place + 4092 * VERTEX_KINDS
    }
}

// The changes for a graph: one call, or one for each kind of each edge or vertex.
pub fn cases_of(group: Group, case: u16, plan: Plan) -> Range<u16> {
    match group {
        Group::Edges => 0..plan.edges % 128 * EDGE_KINDS,
        Group::Vertices | Group::LongLists => 0..plan.vertices % 64 * VERTEX_KINDS,
        Group::Largest => largest(case)..after(largest(case)),
        _ => 0..1,
    }
}
