// Calls of `verify::check`, each compared in full with what it must answer and leave. The lists may
// be longer than what is lent of them.
use checkkit::queries::{Labels, Query, is_left};
use numbers::{Refused, told};
use searchkit::compare::{MARKS_TAG, OFFSETS_TAG, TARGETS_TAG};
use testkit::sample::Graph;
use testkit::words::{first, lent};

// The lists that are lent: N places for the offsets, M for the edges.
#[derive(Drop)]
struct Room<const N: usize, const M: usize> {
    offsets: [u16; N],
    targets: [u16; M],
    marks: [u16; M],
}

impl<const N: usize, const M: usize> Room<N, M> {
    // Lists with a number of its own at all places of each.
    fn new() -> Self {
        Room {
            offsets: [OFFSETS_TAG; N],
            targets: [TARGETS_TAG; M],
            marks: [MARKS_TAG; M],
        }
    }

    // Checks with the first places of the file and of each list.
    fn check(&mut self, file: &[u8], query: Query, labels: Labels) -> Result<(), Refused> {
        let lengths = query.lengths;
        verify::check(
            first(file, query.file),
            query.source,
            first(labels.distances, lengths.distances),
            first(labels.parents, lengths.parents),
            lent(&mut self.offsets, lengths.offsets),
            lent(&mut self.targets, lengths.targets),
            lent(&mut self.marks, lengths.marks),
        )
    }

    // Whether the call answers its number and leaves the lists as it must.
    fn answers(&mut self, graph: Graph, query: Query, labels: Labels) -> bool {
        let answer = self.check(graph.file, query, labels);
        let left = is_left(
            query,
            &self.offsets,
            &self.targets,
            &self.marks,
            graph.rows,
            graph.row_targets,
        );
        (told(&answer) == query.number) & left
    }
}

// With room for every n and m of document 01, and a few places more. A function pays at entry for all its
// lists, so these stand in one of their own.
fn answers_large(graph: Graph, query: Query, labels: Labels) -> bool {
    Room::<4102, 32773>::new().answers(graph, query, labels)
}

// Whether the call answers its number and leaves the lists as it must. The lists are small where that
// is enough.
pub fn answers(graph: Graph, query: Query, labels: Labels) -> bool {
    if query.vertices > 40 || query.edges > 120 {
        answers_large(graph, query, labels)
    } else {
        Room::<52, 132>::new().answers(graph, query, labels)
    }
}
