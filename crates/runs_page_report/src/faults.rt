// Inputs with every set of faults: each must give the first number of the program's order. Two faults
// are the program's own; the others are `searchkit`'s, but for those of the search alone.
use crate::inputs::{Parts, compose};
use crate::replies::{Wanted, answers};
use checkkit::tables;
use searchkit::faults;
use testkit::files::first;

pub const COMBINATIONS: u16 = 4096;

// How many sets of the other faults there are.
const OTHER_SETS: u16 = 1024;

// The faults that come first: fewer than two words, too many distances.
const UNDER_TWO_WORDS: u16 = 1;

const LARGE_COUNT: u16 = 2;

// `searchkit`'s fault of a short list, here as many distances as vertices less one; and its last
// fault, here a wrong result.
const SHORT: u16 = 256;

const WRONG: u16 = 2048;

// The other faults as `searchkit` has them.
fn others(combination: u16) -> u16 {
    combination % 64 + combination / 64 % 16 * 256
}

// The number of the first fault, or 0 where there is none.
fn expected(combination: u16) -> u16 {
    let own = combination / OTHER_SETS;
    if faults::has(own, UNDER_TWO_WORDS) {
        return 1;
    }
    if faults::has(own, LARGE_COUNT) {
        return 20;
    }
    let number = faults::expected(others(combination));
    if number == 21 { 10 } else { number }
}

// How many distances the input has.
fn count(combination: u16) -> u16 {
    let fitting = faults::either(others(combination), SHORT, 3, 4);
    faults::either(combination / OTHER_SETS, LARGE_COUNT, 4097, fitting)
}

// The result: one of the wrong ones, or case A's own.
fn labels(combination: u16) -> u16 {
    let wrong = combination % tables::GOOD;
    faults::either(others(combination), WRONG, wrong, tables::GOOD)
}

// How much of the input is given.
fn given(combination: u16, length: usize) -> usize {
    if faults::has(combination / OTHER_SETS, UNDER_TWO_WORDS) {
        3
    } else {
        length
    }
}

pub fn is_right(combination: u16) -> bool {
    let mut file = [0u8; 28];
    let mut distances = tables::DISTANCES;
    let mut parents = tables::PARENTS;
    let mut input = [0u8; 16500];
    let other = others(combination);
    faults::make_file(&mut file, other);
    faults::make_chains(&mut file, other);
    tables::put_labels(labels(combination), &mut distances, &mut parents);
    let request = faults::request_of(other);
    let parts = Parts {
        source: request.source,
        count: count(combination),
    };
    let lent = first(&file, request.file);
    let length = compose(&mut input, parts, &distances, &parents, lent);
    let wanted = Wanted {
        number: expected(combination),
        vertices: 4,
        distances: &distances,
        parents: &parents,
    };
    answers(first(&input, given(combination, length)), wanted)
}
