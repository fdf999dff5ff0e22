// Calls of `page::page`, each compared in full with what it must answer and leave. The lists may be
// longer than what is lent of them.
use checkkit::queries::{Labels, Query, is_left};
use numbers::{Refused, told};
use pagekit::{BLANK, is_printed, need};
use searchkit::compare::{MARKS_TAG, OFFSETS_TAG, TARGETS_TAG};
use testkit::files::is_filled;
use testkit::sample::Graph;
use testkit::words::{first, lent};

// What a call had to answer; whether it was the page list alone that was too short; and whether it
// answered and left all that it must.
#[derive(Clone, Copy)]
pub struct Outcome {
    pub number: usize,
    pub late: bool,
    pub right: bool,
}

// Whether the page list is as it must be: the pages with 0, else no byte is changed.
fn is_page(number: usize, vertices: u16, labels: Labels, bytes: &[u8]) -> bool {
    if number == 0 {
        return is_printed(bytes, vertices, labels.distances, labels.parents);
    }
    is_filled(bytes, 0, BLANK)
}

// The lists that are lent: N places for the offsets, M for the edges, B for the page list.
#[derive(Drop)]
pub struct Room<const N: usize, const M: usize, const B: usize> {
    offsets: [u16; N],
    targets: [u16; M],
    marks: [u16; M],
    pub bytes: [u8; B],
}

impl<const N: usize, const M: usize, const B: usize> Room<N, M, B> {
    // Lists with a number of its own at all places of each.
    pub fn new() -> Self {
        Room {
            offsets: [OFFSETS_TAG; N],
            targets: [TARGETS_TAG; M],
            marks: [MARKS_TAG; M],
            bytes: [BLANK; B],
        }
    }

    // Lists of zeros.
    pub fn zeroed() -> Self {
        Room {
            offsets: [0; N],
            targets: [0; M],
            marks: [0; M],
            bytes: [0; B],
        }
    }

    // Calls with the first places of the file and of each list, and so many of the page list.
    pub fn page(
        &mut self,
        file: &[u8],
        query: Query,
        places: usize,
        labels: Labels,
    ) -> Result<(), Refused> {
        let lengths = query.lengths;
        page::page(
            first(file, query.file),
            query.source,
            first(labels.distances, lengths.distances),
            first(labels.parents, lengths.parents),
            lent(&mut self.offsets, lengths.offsets),
            lent(&mut self.targets, lengths.targets),
            lent(&mut self.marks, lengths.marks),
            lent(&mut self.bytes, places),
        )
    }

    // Calls, and compares: the checker's number comes first, then 20 for the page list, and in either
    // case the other lists are as the checker leaves them.
    fn call(&mut self, graph: Graph, query: Query, places: usize, labels: Labels) -> Outcome {
        let late = (query.number == 0) & (places < need(query.vertices));
        let number = if late { 20 } else { query.number };
        let answer = self.page(graph.file, query, places, labels);
        let left = is_left(
            query,
            &self.offsets,
            &self.targets,
            &self.marks,
            graph.rows,
            graph.row_targets,
        );
        let printed = is_page(number, query.vertices, labels, &self.bytes);
        Outcome {
            number,
            late,
            right: (told(&answer) == number) & left & printed,
        }
    }
}

// Calls with room for every n and m of document 01, and a few places more. A function pays at entry for all
// its lists, so these stand in one of their own.
fn call_large(graph: Graph, query: Query, places: usize, labels: Labels) -> Outcome {
    Room::<4102, 32773, 87770>::new().call(graph, query, places, labels)
}

// Calls with a page list of so many places, and compares: with small lists where they are enough. The
// query has the checker's number.
pub fn call(graph: Graph, query: Query, places: usize, labels: Labels) -> Outcome {
    if query.vertices > 160 || query.edges > 480 {
        call_large(graph, query, places, labels)
    } else {
        Room::<172, 492, 3460>::new().call(graph, query, places, labels)
    }
}
