// An input for every kind of refusal. A case changes two words of one small file, or the source,
// the workers and one byte of its schedule.
use crate::base::FILE;
use crate::requests::{Request, needs};
use testkit::files::{put, put_word, put_words};
use testkit::words::row_of;

// The cases of both tables.
pub const ROWS: u16 = 79;

pub const FILE_ROWS: u16 = 36;

// The file's length; a place and its word, twice; the number. Word 1 as 4 is no change.
const FILES: [[u16; 6]; 36] = [
    // 0: nothing is changed
    [28, 1, 4, 1, 4, 0],
    // 1: under 4 bytes
    [0, 1, 4, 1, 4, 1],
    [1, 1, 4, 1, 4, 1],
    [3, 1, 4, 1, 4, 1],
    // 1: the length
    [4, 1, 4, 1, 4, 1],
    [26, 1, 4, 1, 4, 1],
    [27, 1, 4, 1, 4, 1],
    [29, 1, 4, 1, 4, 1],
    [32, 1, 4, 1, 4, 1],
    [28, 0, 4096, 1, 32768, 1],
    // 2: n or m outside its size
    [28, 0, 0, 1, 4, 2],
    [28, 0, 4097, 1, 4, 2],
    [28, 0, 65535, 1, 4, 2],
    [28, 0, 4, 1, 32769, 2],
    [28, 0, 4, 1, 65535, 2],
    [4, 0, 0, 1, 0, 2],
    [4, 0, 4097, 1, 0, 2],
    // 3: a target of n or more
    [28, 6, 4, 1, 4, 3],
    [28, 12, 4, 1, 4, 3],
    [28, 8, 65535, 1, 4, 3],
    // 3 in a record that no head leads to
    [28, 4, 0, 12, 4, 3],
    // 4: a head or next above m
    [28, 2, 5, 1, 4, 4],
    [28, 5, 65535, 1, 4, 4],
    [28, 7, 5, 1, 4, 4],
    [28, 13, 65535, 1, 4, 4],
    // 4 in a record that no head leads to; 4 after a target of n
    [28, 4, 0, 13, 5, 4],
    [28, 6, 4, 13, 5, 4],
    // 5: two heads to one record, a cycle, a record after itself, two chains that join
    [28, 5, 1, 1, 4, 5],
    [28, 9, 1, 1, 4, 5],
    [28, 11, 3, 1, 4, 5],
    [28, 11, 4, 1, 4, 5],
    // 5 before 6
    [28, 4, 3, 1, 4, 5],
    // 6: no head, a chain cut short, a cycle that no head leads to, no heads
    [28, 4, 0, 1, 4, 6],
    [28, 7, 0, 1, 4, 6],
    [28, 4, 0, 13, 4, 6],
    [28, 2, 0, 3, 0, 6],
];

// The source; the workers; a place in the schedule and its byte; the schedule's length; the number.
// Byte 0 as 0 is no change.
const CALLS: [[u16; 6]; 43] = [
    // 7: a source of n or more
    [4, 2, 0, 0, 26, 7],
    [5, 2, 0, 0, 26, 7],
    [65535, 2, 0, 0, 26, 7],
    // 8: no worker, nine, more
    [0, 0, 0, 0, 26, 8],
    [0, 9, 0, 0, 26, 8],
    [0, 65535, 0, 0, 26, 8],
    // 8 with no schedule
    [0, 0, 0, 0, 0, 8],
    [0, 9, 0, 0, 0, 8],
    // 9: work with a second worker, as first byte, as finishing byte, after it
    [0, 2, 0, 1, 26, 9],
    [0, 2, 24, 7, 26, 9],
    [0, 2, 25, 1, 26, 9],
    [0, 2, 25, 9, 26, 9],
    // 9: work by a worker that isn't there
    [0, 2, 25, 16, 26, 9],
    [0, 2, 25, 56, 26, 9],
    [0, 1, 25, 8, 26, 9],
    // 9: a split with itself, into or from a worker that isn't there
    [0, 2, 25, 64, 26, 9],
    [0, 2, 25, 73, 26, 9],
    [0, 2, 25, 80, 26, 9],
    [0, 2, 25, 66, 26, 9],
    [0, 8, 25, 127, 26, 9],
    // 9: a union with itself, from or into a worker that isn't there
    [0, 2, 25, 128, 26, 9],
    [0, 2, 25, 137, 26, 9],
    [0, 2, 25, 144, 26, 9],
    [0, 2, 25, 130, 26, 9],
    [0, 8, 25, 191, 26, 9],
    // 9: a close with workers
    [0, 2, 25, 193, 26, 9],
    [0, 2, 25, 200, 26, 9],
    [0, 8, 25, 255, 26, 9],
    [0, 2, 25, 201, 26, 9],
    // the same bytes past the schedule's end, and bytes that eight workers allow
    [0, 2, 25, 255, 25, 0],
    [0, 8, 25, 56, 26, 0],
    [0, 8, 25, 126, 26, 0],
    [0, 8, 25, 190, 26, 0],
    [0, 8, 25, 192, 26, 0],
    // 8 before 9; 7 before 8; 3 before 7
    [0, 9, 25, 255, 26, 8],
    [4, 9, 25, 255, 26, 7],
    // 21: no schedule, one event, all but the last, the last close in vain
    [0, 2, 0, 0, 0, 21],
    [0, 2, 0, 0, 1, 21],
    [0, 2, 0, 0, 24, 21],
    [0, 2, 24, 0, 26, 21],
    [0, 2, 9, 0, 26, 21],
    // other sources
    [3, 2, 1, 192, 26, 0],
    [3, 1, 1, 192, 3, 0],
];

// Case A's file with the two words of a case.
pub fn make_file(file: &mut [u8], row: u16) {
    let [_, place, word, second, another, _] = row_of(&FILES, row);
    put_words(file, &FILE);
    put_word(file, usize::from(place), word);
    put_word(file, usize::from(second), another);
}

// Case A's schedule with the byte of a case.
pub fn make_schedule(schedule: &mut [u8], row: u16) {
    let [_, _, place, byte, _, _] = row_of(&CALLS, row);
    put(schedule, usize::from(place), (byte % 256) as u8);
}

// The request of a case of the first table. The lists are two places longer than their need.
pub fn file_request(row: u16) -> Request {
    let [length, ..] = row_of(&FILES, row);
    Request {
        source: 0,
        workers: 2,
        vertices: 4,
        edges: 4,
        file: usize::from(length),
        schedule: 26,
        lengths: needs(4, 4, 8, 2),
    }
}

// The request of a case of the second table.
pub fn call_request(row: u16) -> Request {
    let [source, workers, _, _, schedule, _] = row_of(&CALLS, row);
    Request {
        source,
        workers,
        vertices: 4,
        edges: 4,
        file: 28,
        schedule: usize::from(schedule),
        lengths: needs(4, 4, 8, 2),
    }
}

// The number of a case of the first table.
pub fn file_number(row: u16) -> u16 {
    let [.., number] = row_of(&FILES, row);
    number
}

// The number of a case of the second table.
pub fn call_number(row: u16) -> u16 {
    let [.., number] = row_of(&CALLS, row);
    number
}
