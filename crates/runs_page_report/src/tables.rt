// Inputs for each step of the program's own order, one by one and with the next step's fault beside
// it; and `checkkit`'s tables of refusals and of sources, handed to the program.
use crate::inputs::{Parts, compose, put_file_word};
use crate::replies::{Wanted, answers};
use checkkit::tables;
use checkkit::tables::Table;
use testkit::files::{first, put_word};

// The cases of the refusals, and of the sources: all results with each of the seven that are words.
pub const REFUSALS: u16 = tables::REFUSAL_CASES;

pub const SOURCES: u16 = 49;

// The input's length; the count; n; m; the number. The source is 0; all other bytes are 0, so that
// records make 6, and a right result has one vertex.
pub const OWN_CASES: [[u16; 5]; 36] = [
    // fewer than two words, whatever they say
    [0, 0, 1, 0, 1],
    [1, 0, 1, 0, 1],
    [2, 65535, 1, 0, 1],
    [3, 0, 1, 0, 1],
    [3, 4097, 1, 0, 1],
    // too many distances, in an input of two words, in one that ends before the file, in longer ones
    [4, 4097, 1, 0, 20],
    [4, 65535, 1, 0, 20],
    [7, 4097, 0, 0, 20],
    [16391, 4097, 1, 0, 20],
    [16395, 4097, 1, 0, 20],
    [16396, 4097, 0, 0, 20],
    [16398, 4097, 1, 0, 20],
    // input ending before 4 bytes of file, before 2
    [4, 0, 1, 0, 1],
    [4, 4096, 0, 0, 1],
    [7, 0, 0, 0, 1],
    [7, 0, 4097, 0, 1],
    [11, 1, 0, 0, 1],
    [16388, 4096, 1, 0, 1],
    [16391, 4096, 0, 0, 1],
    // n or m outside its size, before the length
    [8, 0, 0, 0, 2],
    [8, 0, 4097, 0, 2],
    [8, 0, 1, 32769, 2],
    [16392, 4096, 0, 0, 2],
    [16392, 4096, 65535, 65535, 2],
    // file length
    [8, 0, 1, 0, 1],
    [8, 0, 4096, 32768, 1],
    [13, 1, 1, 0, 1],
    [15, 1, 1, 0, 1],
    [16393, 4096, 1, 0, 1],
    [16395, 4096, 1, 0, 1],
    // fewer distances than vertices, before 6
    [10, 0, 1, 0, 20],
    [14, 0, 1, 1, 20],
    // 6, before 10; 10; none of these, with the least count and the largest
    [24, 2, 2, 1, 6],
    [20, 2, 2, 0, 10],
    [14, 1, 1, 0, 0],
    [16394, 4096, 1, 0, 0],
];

// A case of the program's own order.
pub fn own_is_right(row: &[u16; 5]) -> bool {
    let [length, count, n, m, number] = *row;
    let mut input = [0u8; 20000];
    put_word(&mut input, 1, count);
    put_file_word(&mut input, count, 0, n);
    put_file_word(&mut input, count, 1, m);
    let wanted = Wanted {
        number,
        vertices: 1,
        distances: &[0],
        parents: &[0],
    };
    answers(first(&input, usize::from(length)), wanted)
}

// A case of one of `checkkit`'s tables: the count is the distances' length there.
fn is_right(table: Table, case: u16) -> bool {
    let mut file = [0u8; 32];
    let mut distances = tables::DISTANCES;
    let mut parents = tables::PARENTS;
    let mut input = [0u8; 100];
    let made = tables::make(table, case, &mut file);
    let query = made.query;
    let lengths = query.lengths;
    tables::put_labels(made.labels, &mut distances, &mut parents);
    let parts = Parts {
        source: (query.source % 65536) as u16,
        count: (lengths.distances % 65536) as u16,
    };
    let lent = first(&file, query.file);
    let length = compose(&mut input, parts, &distances, &parents, lent);
    let wanted = Wanted {
        number: (query.number % 65536) as u16,
        vertices: 4,
        distances: &distances,
        parents: &parents,
    };
    answers(first(&input, length), wanted)
}

// A case of the table of refusals.
pub fn refusal_is_right(case: u16) -> bool {
    is_right(Table::Refusals, case)
}

// A case of the table of sources, of which the first seven are words.
pub fn source_is_right(case: u16) -> bool {
    is_right(Table::Sources, case % 7 + case / 7 % 7 * 12)
}
