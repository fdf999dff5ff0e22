// What is asked of a check, and what it must leave.
use searchkit::compare::{are_rows, are_rows_kept, cleared};
use searchkit::requests::Lengths;

// The source, n and m of the file, how much is lent of the file and of each list; and the number that
// a check must answer.
#[derive(Clone, Copy)]
pub struct Query {
    pub source: usize,
    pub vertices: u16,
    pub edges: u16,
    pub file: usize,
    pub lengths: Lengths,
    pub number: usize,
}

// A result: the distance and the parent of each vertex.
#[derive(Clone, Copy)]
pub struct Labels<'a> {
    pub distances: &'a [u16],
    pub parents: &'a [u16],
}

// Whether the lists are as a check with this number leaves them: with 0 and 10 the rows are written
// and the first m marks are 0; with 5 and 6 only those marks are; else nothing is changed.
pub fn is_left(
    query: Query,
    offsets: &[u16],
    targets: &[u16],
    marks: &[u16],
    rows: &[u16],
    row_targets: &[u16],
) -> bool {
    if (query.number == 0) | (query.number == 10) {
        let n = usize::from(query.vertices);
        let m = usize::from(query.edges);
        return are_rows(offsets, targets, marks, rows, row_targets, n, m);
    }
    let zeros = cleared(query.number, query.edges);
    are_rows_kept(offsets, targets, marks, zeros)
}
