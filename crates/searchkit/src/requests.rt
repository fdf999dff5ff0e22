// What a call of the search is asked, and what it answered.
use crate::counts::places;

// How much of each list is lent.
#[derive(Clone, Copy, Default)]
pub struct Lengths {
    pub offsets: usize,
    pub targets: usize,
    pub marks: usize,
    pub distances: usize,
    pub parents: usize,
    pub histogram: usize,
    pub left: usize,
    pub right: usize,
    pub values: usize,
}

// What is asked of a call: the source, the workers, how much is lent of the file, the schedule and
// the lists; and n and m of the file.
#[derive(Clone, Copy)]
pub struct Request {
    pub source: u16,
    pub workers: u16,
    pub vertices: u16,
    pub edges: u16,
    pub file: usize,
    pub schedule: usize,
    pub lengths: Lengths,
}

// The lists with `more` places than their need.
pub fn needs(vertices: u16, edges: u16, workers: u16, more: u16) -> Lengths {
    let labels = usize::from(vertices) + usize::from(more);
    let records = usize::from(edges) + usize::from(more);
    let nodes = places(vertices, workers).wrapping_add(usize::from(more));
    Lengths {
        offsets: labels + 1,
        targets: records,
        marks: records,
        distances: labels,
        parents: labels,
        histogram: labels,
        left: nodes,
        right: nodes,
        values: nodes,
    }
}

// An answer: number, events used, effective events, d.
#[derive(Clone, Copy)]
pub struct Seen {
    pub number: usize,
    pub used: usize,
    pub effective: usize,
    pub layer: usize,
}

// What a call answered, and whether it left the lists as it must.
#[derive(Clone, Copy)]
pub struct Outcome {
    pub seen: Seen,
    pub right: bool,
}

// A case: what was answered, a number made of its labels, and whether all was as it must be.
#[derive(Clone, Copy)]
pub struct Report {
    pub seen: Seen,
    pub digest: u64,
    pub right: bool,
}

// Whether the number is one of a search that was played: 0 or 21.
pub fn is_played(number: usize) -> bool {
    matches!(number, 0 | 21)
}
