// Cases A to I of document 01: their inputs and answers.
use crate::requests::{Request, Seen, needs};
use testkit::files::{copy, put, put_words};

pub const CASES: u16 = 9;

// One of C to I, of one vertex and at most one edge: the file's length and its words; the workers; the
// first two bytes of the schedule and its length; the number; the events used, which are all
// effective.
#[derive(Clone, Copy)]
struct Row(usize, [u16; 5], u16, [u8; 2], usize, u16, u16);

const POINTS: [Row; 7] = [
    Row(6, [1, 0, 0, 0, 0], 1, [0, 192], 2, 0, 2),
    Row(6, [1, 0, 0, 0, 0], 1, [0, 192], 0, 21, 0),
    Row(10, [1, 1, 0, 0, 0], 1, [0, 192], 2, 6, 0),
    Row(10, [1, 1, 1, 0, 1], 1, [0, 192], 2, 5, 0),
    Row(4, [0, 0, 0, 0, 0], 1, [0, 192], 2, 2, 0),
    Row(6, [1, 0, 0, 0, 0], 9, [0, 192], 2, 8, 0),
    Row(6, [1, 0, 0, 0, 0], 1, [72, 192], 1, 9, 0),
];

// C is row 0, I row 6.
fn row_of(row: u16) -> Row {
    POINTS[usize::from(row % 7)]
}

// The number of a row, and the events used.
pub fn answer(row: u16) -> (u16, u16) {
    let Row(_, _, _, _, _, number, events) = row_of(row);
    (number, events)
}

// Whether the answer is a number, as many events used as effective, and a layer.
pub fn is_answer(seen: Seen, number: u16, events: u16, layer: usize) -> bool {
    let used = (seen.used == usize::from(events)) & (seen.effective == usize::from(events));
    (seen.number == usize::from(number)) & used & (seen.layer == layer)
}

// A's request, and B's.
pub fn square() -> Request {
    Request {
        source: 0,
        workers: 2,
        vertices: 4,
        edges: 4,
        file: 28,
        schedule: 25,
        lengths: needs(4, 4, 2, 0),
    }
}

// B has events 18 and 19 swapped.
pub fn make_square(schedule: &mut [u8], is_swapped: bool) {
    put(schedule, 17, if is_swapped { 0 } else { 8 });
    put(schedule, 18, if is_swapped { 8 } else { 0 });
}

// The file of a case: n and m, the head, the record.
pub fn make_file(file: &mut [u8], row: u16) {
    let Row(_, words, _, _, _, _, _) = row_of(row);
    put_words(file, &words);
}

// The lists are at their need.
pub fn point(row: u16) -> Request {
    let Row(file, [_, edges, ..], workers, _, schedule, _, _) = row_of(row);
    Request {
        source: 0,
        workers,
        vertices: 1,
        edges,
        file,
        schedule,
        lengths: needs(1, edges, workers, 0),
    }
}

// The schedule of a case.
pub fn make_schedule(schedule: &mut [u8], row: u16) {
    let Row(_, _, _, bytes, _, _, _) = row_of(row);
    copy(&bytes, schedule, 0);
}
