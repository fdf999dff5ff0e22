// Inputs with every set of faults: each must give the first number of document 01's order, 1 (under
// 4), 2, 1 (length), 4, 3, 7, 8, 9, 20, 5, 6, 21. A combination's binary digits say which faults
// the input has, the first fault being the lowest digit; the highest digit is a second fault of number
// 20: the counts are short, as the node values are with the first.
use crate::base::FILE;
use crate::requests::{Lengths, Request, needs};
use testkit::files::{put, put_word, put_words};

pub const COMBINATIONS: u16 = 8192;

// The faults.
const UNDER_4: u16 = 1;

const NO_VERTEX: u16 = 2;

const SHORT_FILE: u16 = 4;

const LARGE_HEAD: u16 = 8;

const LARGE_TARGET: u16 = 16;

const LARGE_SOURCE: u16 = 32;

const MANY_WORKERS: u16 = 64;

const BAD_BYTE: u16 = 128;

const SHORT_VALUES: u16 = 256;

const CYCLE: u16 = 512;

const NO_HEAD: u16 = 1024;

const SHORT_SCHEDULE: u16 = 2048;

const SHORT_COUNTS: u16 = 4096;

// The faults and their numbers, in the order of document 01.
const NUMBERS: [(u16, u16); 13] = [
    (UNDER_4, 1),
    (NO_VERTEX, 2),
    (SHORT_FILE, 1),
    (LARGE_HEAD, 4),
    (LARGE_TARGET, 3),
    (LARGE_SOURCE, 7),
    (MANY_WORKERS, 8),
    (BAD_BYTE, 9),
    (SHORT_VALUES, 20),
    (SHORT_COUNTS, 20),
    (CYCLE, 5),
    (NO_HEAD, 6),
    (SHORT_SCHEDULE, 21),
];

// Whether the fault is there.
pub fn has(combination: u16, fault: u16) -> bool {
    combination & fault != 0
}

// The first word where the fault is there, else the second.
pub fn either(combination: u16, fault: u16, faulty: u16, good: u16) -> u16 {
    if has(combination, fault) {
        faulty
    } else {
        good
    }
}

// The number of the first fault, in the order of document 01; 0 where there is none.
pub fn expected(combination: u16) -> u16 {
    NUMBERS
        .iter()
        .find(|(fault, _)| has(combination, *fault))
        .map_or(0, |(_, number)| *number)
}

// The file: no vertex; a head above m; a target of n.
pub fn make_file(file: &mut [u8], combination: u16) {
    put_words(file, &FILE);
    put_word(file, 0, either(combination, NO_VERTEX, 0, 4));
    put_word(file, 5, either(combination, LARGE_HEAD, 5, 0));
    put_word(file, 12, either(combination, LARGE_TARGET, 4, 3));
}

// A record after itself; no head to a record.
pub fn make_chains(file: &mut [u8], combination: u16) {
    put_word(file, 11, either(combination, CYCLE, 3, 0));
    put_word(file, 4, either(combination, NO_HEAD, 0, 4));
}

// The byte after the finishing one, or the only one, is not of the forms.
pub fn make_schedule(schedule: &mut [u8], combination: u16) {
    let byte = if has(combination, BAD_BYTE) { 255 } else { 0 };
    put(schedule, 25, byte);
    if has(combination, SHORT_SCHEDULE) {
        put(schedule, 0, byte);
    }
}

// The lists at their need, but for the node values and the counts, which may be short.
fn lent(combination: u16) -> Lengths {
    let mut lengths = needs(4, 4, 2, 0);
    if has(combination, SHORT_COUNTS) {
        lengths.histogram = 3;
    }
    if has(combination, SHORT_VALUES) {
        lengths.values = 8;
    }
    lengths
}

// The file's length.
fn file_length(combination: u16) -> usize {
    if has(combination, UNDER_4) {
        3
    } else if has(combination, SHORT_FILE) {
        27
    } else {
        28
    }
}

// The request, with its own faults: the source, the workers, the file's length and the schedule's.
pub fn request_of(combination: u16) -> Request {
    Request {
        source: either(combination, LARGE_SOURCE, 4, 0),
        workers: either(combination, MANY_WORKERS, 9, 2),
        vertices: 4,
        edges: 4,
        file: file_length(combination),
        schedule: if has(combination, SHORT_SCHEDULE) {
            1
        } else {
            26
        },
        lengths: lent(combination),
    }
}
