// Inputs with every set of faults: each must give the first number of the program's order.
use crate::inputs::{Parts, compose};
use crate::replies::answers;
use searchkit::base::{FILE, SCHEDULE};
use searchkit::faults::{either, has};
use testkit::files::{first, put, put_word, put_words};

pub const COMBINATIONS: u16 = 16384;

// The faults in the program's order, each a binary digit of a combination.
const UNDER_THREE_WORDS: u16 = 1;

const LONG_SCHEDULE: u16 = 2;

const UNDER_FOUR_BYTES: u16 = 4;

const NO_VERTEX: u16 = 8;

const MANY_EDGES: u16 = 16;

const CUT_FILE: u16 = 32;

const HIGH_HEAD: u16 = 64;

const HIGH_TARGET: u16 = 128;

const FAR_SOURCE: u16 = 256;

const NINE_WORKERS: u16 = 512;

const STRAY_BYTE: u16 = 1024;

const RECORD_TWICE: u16 = 2048;

const RECORD_NEVER: u16 = 4096;

const SHORT_SCHEDULE: u16 = 8192;

// Their numbers.
const NUMBERS: [u16; 14] = [1, 20, 1, 2, 20, 1, 4, 3, 7, 8, 9, 5, 6, 21];

// The number of the first fault, or 0 where there is none.
fn expected(combination: u16) -> u16 {
    let mut rest = combination;
    for number in NUMBERS {
        if rest % 2 == 1 {
            return number;
        }
        rest /= 2;
    }
    0
}

// Case A's file: no vertex, too many edges for the program, a head above m, a target of n.
fn make_file(file: &mut [u8], combination: u16) {
    put_words(file, &FILE);
    put_word(file, 0, either(combination, NO_VERTEX, 0, 4));
    put_word(file, 1, either(combination, MANY_EDGES, 2049, 4));
    put_word(file, 5, either(combination, HIGH_HEAD, 5, 0));
    put_word(file, 12, either(combination, HIGH_TARGET, 4, 3));
}

// A record after itself; no head to a record.
fn make_chains(file: &mut [u8], combination: u16) {
    put_word(file, 11, either(combination, RECORD_TWICE, 3, 0));
    put_word(file, 4, either(combination, RECORD_NEVER, 0, 4));
}

// Case A's schedule and a byte more; that byte, or the only one, is not of the forms.
fn make_schedule(schedule: &mut [u8], combination: u16) {
    let place = either(combination, SHORT_SCHEDULE, 0, 25) as usize;
    put(
        schedule,
        place,
        (either(combination, STRAY_BYTE, 255, 0) % 256) as u8,
    );
}

// The words of the input.
fn parts_of(combination: u16) -> Parts {
    let events = either(combination, SHORT_SCHEDULE, 1, 26);
    Parts {
        source: either(combination, FAR_SOURCE, 4, 0),
        workers: either(combination, NINE_WORKERS, 9, 2),
        events: either(combination, LONG_SCHEDULE, 8193, events),
    }
}

// The length of the file.
fn file_length(combination: u16) -> usize {
    let length = either(combination, CUT_FILE, 27, 28);
    usize::from(either(combination, UNDER_FOUR_BYTES, 3, length))
}

// How much of the input is given.
fn given(combination: u16, length: usize) -> usize {
    if has(combination, UNDER_THREE_WORDS) {
        5
    } else {
        length
    }
}

pub fn is_right(combination: u16) -> bool {
    let mut file = [0u8; 28];
    let mut schedule = SCHEDULE;
    let mut input = [0u8; 8240];
    make_file(&mut file, combination);
    make_chains(&mut file, combination);
    make_schedule(&mut schedule, combination);
    let lent = first(&file, file_length(combination));
    let length = compose(&mut input, parts_of(combination), &schedule, lent);
    let cut = first(&input, given(combination, length));
    answers(cut, 4, expected(combination))
}
