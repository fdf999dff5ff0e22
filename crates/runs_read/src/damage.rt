// Good files with damage. What each must answer is foretold by `oracle`, and compared in full.
use crate::oracle::predict;
use std::io;
use testkit::files;
use testkit::group::Tally;
use testkit::random::{below, leap, next};
use testkit::reading::{Lengths, answers};
use testkit::sample::{after, draw_file, file_length, record_place};
use testkit::words::at;

const VERTICES: u16 = 12;

const EDGES: u16 = 30;
// The file has 148 bytes.
const LENGTH: u16 = 148;

const ROUND_COUNT: u16 = 4000;
// The first rounds damage each byte in turn, four times; those up to the second bound the chains.
const BYTE_ROUNDS: u16 = 592;

const CHAIN_ROUNDS: u16 = 2500;

// The place, in words, of a head or of a next index.
fn chain_place(seed: u64) -> usize {
    let chosen = below(seed, 42);
    if chosen < VERTICES {
        2 + usize::from(chosen)
    } else {
        record_place(VERTICES, chosen - 11) + 1
    }
}

// Stores an index that is mostly one of a record.
fn damage_chain(file: &mut [u8], seed: u64) {
    files::put_word(file, chain_place(seed), below(next(seed), 32));
}

// Damages one to three indices.
fn damage_chains(file: &mut [u8], round: u16, seed: u64) {
    let mut state = seed;
    for _ in 0..=round % 3 {
        damage_chain(file, state);
        state = leap(state);
    }
}

// Swaps two indices: every record is still named once, and may lie on no chain.
fn swap_indices(file: &mut [u8], seed: u64) {
    let a = chain_place(seed);
    let b = chain_place(next(seed));
    let first = files::word(file, a);
    let second = files::word(file, b);
    files::put_word(file, a, second);
    files::put_word(file, b, first);
}

// Damages one byte; or some indices; or swaps two.
fn damage(file: &mut [u8], round: u16, seed: u64) {
    if round < BYTE_ROUNDS {
        files::put(file, usize::from(round % LENGTH), (seed / 8 % 256) as u8);
    } else if round < CHAIN_ROUNDS {
        damage_chains(file, round, seed);
    } else {
        swap_indices(file, seed);
    }
}

// The length of a list: one short, the need, or three more.
fn list_length(need: usize, seed: u64) -> usize {
    match below(seed, 32) {
        0 => need.wrapping_sub(1),
        1..=15 => need,
        _ => need.wrapping_add(3),
    }
}

// The length of the file: one short, one long, or as its words ask.
fn cut_length(length: usize, seed: u64) -> usize {
    match below(seed, 64) {
        0 => length.wrapping_sub(1),
        1 => length.wrapping_add(1),
        _ => length,
    }
}

fn lent(seed: u64) -> Lengths {
    let second = next(seed);
    let third = next(second);
    Lengths {
        file: cut_length(file_length(VERTICES, EDGES), seed),
        offsets: list_length(13, second),
        targets: list_length(30, third),
        marks: list_length(30, next(third)),
    }
}

// Whether reading the file answers the number and gives these rows.
fn is_right(
    file: &[u8],
    round_lengths: Lengths,
    number: usize,
    rows: &[u16],
    row_targets: &[u16],
) -> bool {
    let mut offsets = [0u16; 20];
    let mut targets = [0u16; 40];
    let mut marks = [0u16; 40];
    let n = files::word(file, 0);
    let m = files::word(file, 1);
    answers(
        file,
        &mut offsets,
        &mut targets,
        &mut marks,
        round_lengths,
        number,
        rows,
        row_targets,
        n,
        m,
    )
}

// Draws a graph and makes a damaged file of it.
fn make(file: &mut [u8], round: u16, seed: u64) {
    let mut sources = [0u16; 30];
    let mut targets = [0u16; 30];
    let mut offsets = [0u16; 13];
    let mut order = [0u16; 30];
    draw_file(
        file,
        &mut sources,
        &mut targets,
        &mut offsets,
        &mut order,
        VERTICES,
        EDGES,
        seed,
    );
    damage(file, round, leap(seed));
}

// The number that the round must answer; none where reading does otherwise.
fn outcome(round: u16, seed: u64) -> Option<usize> {
    let mut file = [0u8; 160];
    make(&mut file, round, seed);
    let mut rows = [0u16; 20];
    let mut row_targets = [0u16; 64];
    let mut seen = [0u16; 64];
    let round_lengths = lent(next(seed));
    let number = predict(&file, round_lengths, &mut rows, &mut row_targets, &mut seen);
    if is_right(&file, round_lengths, number, &rows, &row_targets) {
        Some(number)
    } else {
        None
    }
}

// Runs all rounds, and counts how often each number was met.
fn rounds(met: &mut [u16]) -> Tally {
    let mut tally = Tally::new();
    let mut state: u64 = 4;
    for round in 0..ROUND_COUNT {
        state = leap(state);
        let number = outcome(round, state);
        tally = tally.with(number.is_some());
        if let Some(number) = number {
            count(met, number);
        }
    }
    tally
}

// One more of a number.
fn count(met: &mut [u16], number: usize) {
    if let Some(times) = met.get_mut(number) {
        *times = after(*times);
    }
}

pub fn run(rt: &impl Print) -> io::Result<()> {
    let mut met = [0u16; 21];
    rounds(&mut met).print(rt, "damaged files")?;
    let taken = met[0];
    print!(rt; "numbers met: {taken} of 0")?;
    for number in [1, 2, 3, 4, 5, 6, 20] {
        let times = at(&met, number);
        print!(rt; ", {times} of {number}")?;
    }
    println!(rt)
}
