// Inputs of drawn bytes, and case A's input with drawn bytes in it: whatever the reply's number, its
// form must be right, and with 0 and 21 it has a line for each vertex of the file.
use crate::inputs::{file_start, put_square};
use crate::replies::ask;
use searchkit::requests::{Seen, is_played};
use std::io;
use testkit::files::{at, first, put, word};
use testkit::group::Tally;
use testkit::random::{below, leap, next};
use testkit::sample::after;
use testkit::words;

const ROUND_COUNT: u16 = 2400;

// The first rounds draw all bytes.
const BYTE_ROUNDS: u16 = 600;

// Case A's input has 59 bytes.
const WHOLE: u16 = 59;

// A byte below the bound.
fn byte(seed: u64, bound: u16) -> u8 {
    (below(seed, bound) % 256) as u8
}

// Draws all bytes, each below the bound.
fn fill(input: &mut [u8], bound: u16, seed: u64) {
    let mut state = seed;
    for place in input {
        state = next(state);
        *place = byte(state, bound);
    }
}

// The bound of all bytes: with a small one the words are small more often.
fn bound_of(round: u16) -> u16 {
    match round % 3 {
        0 => 256,
        1 => 2,
        _ => 5,
    }
}

// A drawn byte at a drawn place, mostly a small one.
fn damage(input: &mut [u8], round: u16, seed: u64) {
    let place = usize::from(below(seed, WHOLE));
    let bound = if round % 4 == 0 { 256 } else { 6 };
    put(input, place, byte(next(seed), bound));
}

// The round's input; the answer is its length.
fn make(input: &mut [u8], round: u16, seed: u64) -> u16 {
    let second = leap(seed);
    if round < BYTE_ROUNDS {
        fill(input, bound_of(round), second);
        return below(seed, 200);
    }
    put_square(input, 25);
    damage(input, round, second);
    if round % 2 == 0 {
        damage(input, round, leap(second));
    }
    WHOLE
}

// n of the file that an input has.
fn vertices_in(input: &[u8]) -> u16 {
    let start = file_start(word(input, 2));
    let high = at(input, start.wrapping_add(1));
    u16::from_le_bytes([at(input, start), high])
}

// Whether the effective events are at most the used ones, and these at most the schedule's.
fn is_counted(seen: Seen, events: u16) -> bool {
    if is_played(seen.number) {
        return (seen.effective <= seen.used) & (seen.used <= usize::from(events));
    }
    true
}

// The reply's number, where its form is right.
fn number_of(round: u16, seed: u64) -> Option<usize> {
    let mut input = [0u8; 200];
    let mut distances = [0u16; 512];
    let mut parents = [0u16; 512];
    let length = usize::from(make(&mut input, round, seed));
    let vertices = vertices_in(&input);
    let cut = first(&input, length);
    let seen = ask(cut, vertices, &mut distances, &mut parents)?;
    is_counted(seen, word(&input, 2)).then_some(seen.number)
}

// One more of a number.
fn count(met: &mut [u16], number: usize) {
    if let Some(times) = met.get_mut(number) {
        *times = after(*times);
    }
}

// All rounds; how often each number was met.
fn rounds(met: &mut [u16]) -> Tally {
    let mut tally = Tally::new();
    let mut state: u64 = 4;
    for round in 0..ROUND_COUNT {
        state = leap(state);
        let number = number_of(round, state);
        tally = tally.with(number.is_some());
        if let Some(number) = number {
            count(met, number);
        }
    }
    tally
}

// The line that says how often each number was met.
fn print_numbers(rt: &impl Print, met: &[u16]) -> io::Result<()> {
    let taken = words::at(met, 0);
    print!(rt; "numbers met: {taken} of 0")?;
    for number in [1, 2, 3, 4, 5, 6, 7, 8, 9, 20, 21] {
        let times = words::at(met, number);
        print!(rt; ", {times} of {number}")?;
    }
    println!(rt)
}

pub fn run(rt: &impl Print) -> io::Result<()> {
    let mut met = [0u16; 100];
    rounds(&mut met).print(rt, "drawn bytes")?;
    print_numbers(rt, &met)
}
