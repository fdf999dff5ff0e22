// Inputs for each step of the program's own order, one by one and with the next step's fault beside
// it; and `searchkit`'s tables of refusals, handed to the program.
use crate::inputs::{compose, parts_of, put_file_word, put_head};
use crate::replies::answers;
use searchkit::base::{FILE, SCHEDULE};
use searchkit::refusals;
use testkit::files::{first, put_words, word};

// Up to 4 bytes of file, with m 0: the input's length; the sheet length; n; the number. The source is
// 0, one worker; all other bytes are 0.
pub const HEAD_CASES: [[u16; 4]; 27] = [
    // fewer than three words, whatever they say
    [0, 0, 1, 1],
    [1, 0, 1, 1],
    [4, 0, 1, 1],
    [5, 0, 1, 1],
    [5, 8193, 1, 1],
    [5, 65535, 0, 1],
    // sheet length too large, in an input of three words, in one that ends before the file, in a longer
    // one
    [6, 8193, 1, 20],
    [6, 65535, 1, 20],
    [10, 8193, 1, 20],
    [8199, 8193, 0, 20],
    [8202, 8193, 0, 20],
    [8203, 8193, 0, 20],
    [8203, 8193, 4097, 20],
    [8205, 8193, 1, 20],
    [17418, 8193, 1, 20],
    [17419, 65535, 1, 20],
    // input ending before 4 bytes of file, before 2 and 20
    [6, 0, 1, 1],
    [6, 8192, 1, 1],
    [9, 0, 0, 1],
    [9, 0, 4097, 1],
    [9, 0, 513, 1],
    [8198, 8192, 1, 1],
    [8201, 8192, 0, 1],
    [8201, 8192, 513, 1],
    // the longest sheet: 2, 20, none of these
    [8202, 8192, 0, 2],
    [8202, 8192, 513, 20],
    [8204, 8192, 1, 21],
];

// With no schedule: the input's length; n; m; the number. All other bytes are 0, so that records make
// 6.
pub const SIZE_CASES: [[u16; 4]; 32] = [
    // n or m outside 01's sizes, before 20, in 4 bytes of file
    [10, 0, 0, 2],
    [10, 4097, 0, 2],
    [10, 65535, 0, 2],
    [10, 1, 32769, 2],
    [10, 1, 65535, 2],
    [10, 0, 2049, 2],
    [10, 4097, 2049, 2],
    [10, 513, 32769, 2],
    [10, 65535, 65535, 2],
    // the same in a file of the right length
    [8208, 4097, 1, 2],
    [8206, 4098, 0, 2],
    // n or m above its own, before the length
    [10, 513, 0, 20],
    [10, 4096, 0, 20],
    [10, 1, 2049, 20],
    [10, 1, 32768, 20],
    [10, 513, 2049, 20],
    [10, 4096, 32768, 20],
    // the same in a file of the right length
    [1036, 513, 0, 20],
    [8202, 4096, 0, 20],
    [8208, 1, 2049, 20],
    // file length
    [10, 1, 0, 1],
    [11, 1, 0, 1],
    [13, 1, 0, 1],
    [10, 512, 2048, 1],
    [1033, 512, 0, 1],
    [1035, 512, 0, 1],
    [8203, 1, 2048, 1],
    [8205, 1, 2048, 1],
    // files of the right length: none of these
    [12, 1, 0, 21],
    [1034, 512, 0, 21],
    [8204, 1, 2048, 6],
    [9226, 512, 2048, 6],
];

// Whether the first bytes of an input with these words and zeros are answered with the number.
fn is_answered(length: u16, events: u16, n: u16, m: u16, number: u16) -> bool {
    let mut input = [0u8; 20000];
    put_head(&mut input, 0, 1, events);
    put_file_word(&mut input, events, 0, n);
    put_file_word(&mut input, events, 1, m);
    answers(first(&input, usize::from(length)), n, number)
}

// A case of the first table.
pub fn head_is_right(row: &[u16; 4]) -> bool {
    let [length, events, n, number] = *row;
    is_answered(length, events, n, 0, number)
}

// A case of the second table.
pub fn size_is_right(row: &[u16; 4]) -> bool {
    let [length, n, m, number] = *row;
    is_answered(length, 0, n, m, number)
}

// The search's number, but 20 where n or m is above the program's own sizes.
fn own_number(number: u16, n: u16, m: u16) -> u16 {
    if (number == 1) & ((n > 512) | (m > 2048)) {
        return 20;
    }
    number
}

// Case A with another file.
fn file_is_right(row: u16) -> bool {
    let mut file = [0u8; 32];
    let mut input = [0u8; 100];
    refusals::make_file(&mut file, row);
    let request = refusals::file_request(row);
    let lent = first(&file, request.file);
    let length = compose(&mut input, parts_of(request), &SCHEDULE, lent);
    let number = own_number(refusals::file_number(row), word(&file, 0), word(&file, 1));
    answers(first(&input, length), 4, number)
}

// Case A with another source, other workers or another schedule.
fn call_is_right(row: u16) -> bool {
    let mut file = [0u8; 28];
    let mut schedule = SCHEDULE;
    let mut input = [0u8; 100];
    put_words(&mut file, &FILE);
    refusals::make_schedule(&mut schedule, row);
    let parts = parts_of(refusals::call_request(row));
    let length = compose(&mut input, parts, &schedule, &file);
    answers(first(&input, length), 4, refusals::call_number(row))
}

// A case of `searchkit`'s tables.
pub fn is_right(row: u16) -> bool {
    if row < refusals::FILE_ROWS {
        file_is_right(row)
    } else {
        call_is_right(row - refusals::FILE_ROWS)
    }
}
