// Case A of document 01 with faults: in the file, the source, one list's length, the result.
use crate::queries::Query;
use searchkit::base::FILE;
use searchkit::requests::{Lengths, needs};
use searchkit::{faults, refusals};
use testkit::contents;
use testkit::files::put_words;
use testkit::words::{put, row_of};

// A vertex, its distance and its parent in a result for case A: five wrong results, two right ones.
const LABEL_TABLE: [[u16; 3]; 7] = [
    // the distance one more
    [3, 3, 1],
    // a parent two nearer
    [3, 2, 0],
    // no labels
    [2, 65535, 65535],
    // the source's parent
    [0, 0, 1],
    // a parent with no edge
    [1, 1, 2],
    // either of two right parents
    [3, 2, 1],
    [3, 2, 2],
];

// The first right one: case A's own.
pub const GOOD: u16 = 5;

// The tables, and how many cases each has: all results with each of 36 files, and with each of 12
// sources; every set of ten faults with each of five lists and wrong results.
#[derive(Clone, Copy)]
pub enum Table {
    Refusals,
    Sources,
    Faults,
}

pub const REFUSAL_CASES: u16 = 252;

pub const SOURCE_CASES: u16 = 84;

pub const FAULT_CASES: u16 = 5120;

// The rows of case A's file.
pub const ROWS: [u16; 5] = [0, 2, 3, 4, 4];

pub const ROW_TARGETS: [u16; 4] = [1, 2, 3, 3];

// Case A's result, and two places of rubbish.
pub const DISTANCES: [u16; 6] = [0, 1, 1, 2, 65535, 0];

pub const PARENTS: [u16; 6] = [0, 0, 0, 1, 0, 65535];

// A case: what is asked, and a row of the table of labels.
#[derive(Clone, Copy)]
pub struct Case {
    pub query: Query,
    pub labels: u16,
}

// Sources, those of n and more last.
const STARTS: [usize; 12] = [
    0,
    1,
    2,
    3,
    4,
    5,
    65535,
    65536,
    65537,
    4294967296,
    9223372036854775808,
    18446744073709551615,
];

// Gives one vertex the labels of a row of the table.
pub fn put_labels(labels: u16, distances: &mut [u16], parents: &mut [u16]) {
    let [vertex, distance, parent] = row_of(&LABEL_TABLE, labels);
    put(distances, vertex, distance);
    put(parents, vertex, parent);
}

// The number where it is a refusal's, else 0 or 10 by the result.
fn number_of(refusal: u16, labels: u16) -> usize {
    if refusal == 0 {
        return if labels < GOOD { 10 } else { 0 };
    }
    usize::from(refusal)
}

// The query of another file.
fn refusal_query(row: u16, labels: u16) -> Query {
    let request = refusals::file_request(row);
    let lengths = request.lengths;
    Query {
        source: 0,
        vertices: 4,
        edges: 4,
        file: request.file,
        lengths,
        number: number_of(refusals::file_number(row), labels),
    }
}

// Another file, with each result.
fn refusal(case: u16, file: &mut [u8]) -> Case {
    refusals::make_file(file, case % 36);
    Case {
        query: refusal_query(case % 36, case / 36),
        labels: case / 36,
    }
}

// The number of a source: no result is right for another vertex than 0.
fn number_from(row: u16, labels: u16) -> usize {
    match row {
        0 => number_of(0, labels),
        1..=3 => 10,
        _ => 7,
    }
}

// The query of another source.
fn source_query(row: u16, labels: u16) -> Query {
    Query {
        source: contents::at(&STARTS, usize::from(row)),
        vertices: 4,
        edges: 4,
        file: 28,
        lengths: needs(4, 4, 1, labels % 3),
        number: number_from(row, labels),
    }
}

// Another source, with each result.
fn source(case: u16, file: &mut [u8]) -> Case {
    put_words(file, &FILE);
    Case {
        query: source_query(case % 12, case / 12),
        labels: case / 12,
    }
}

// The lists at their need, but the short one.
fn lent(short: u16) -> Lengths {
    let need = needs(4, 4, 1, 0);
    let length = |need: usize, list: u16| need.wrapping_sub(usize::from(list == short));
    Lengths {
        offsets: length(need.offsets, 0),
        targets: length(need.targets, 1),
        marks: length(need.marks, 2),
        distances: length(need.distances, 3),
        parents: length(need.parents, 4),
        ..Lengths::default()
    }
}

// The choice where the fault is there, else 5: no list is short, and the result is right.
fn chosen(combination: u16, power: u16, choice: u16) -> u16 {
    if faults::has(combination, power) {
        choice
    } else {
        5
    }
}

// The query of a set of faults. The number 21 of the search is 10 here.
fn fault_query(combination: u16, choice: u16) -> Query {
    let request = faults::request_of(combination);
    let number = faults::expected(combination);
    Query {
        source: usize::from(request.source),
        vertices: 4,
        edges: 4,
        file: request.file,
        lengths: lent(chosen(combination, 256, choice)),
        number: if number == 21 {
            10
        } else {
            usize::from(number)
        },
    }
}

// A set of faults, with one list as the short one and one wrong result. The faults of the search
// alone are left out.
fn fault(case: u16, file: &mut [u8]) -> Case {
    let combination = case % 64 + case / 64 % 16 * 256;
    let choice = case / 1024;
    faults::make_file(file, combination);
    faults::make_chains(file, combination);
    Case {
        query: fault_query(combination, choice),
        labels: chosen(combination, 2048, choice),
    }
}

// A case of a table, with its file, which has up to 32 bytes.
pub fn make(table: Table, case: u16, file: &mut [u8]) -> Case {
    match table {
        Table::Refusals => refusal(case, file),
        Table::Sources => source(case, file),
        Table::Faults => fault(case, file),
    }
}
