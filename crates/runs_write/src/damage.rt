// Good rows with damage. What writing them must answer is foretold here by a plain check; what is
// written must be read back as the same rows.
use crate::writing;
use std::io;
use testkit::group::Tally;
use testkit::random::{below, leap, next};
use testkit::reading;
use testkit::sample::draw;
use testkit::words::put;

const VERTICES: u16 = 9;

const EDGES: u16 = 20;

const ROUND_COUNT: u16 = 2000;

// The number that writing must answer with a list of bytes at its need: 11 where the offsets don't
// rise from 0 to m, or a target is no vertex.
fn expected(offsets: &[u16], targets: &[u16]) -> usize {
    let ends = offsets.first() == Some(&0) && offsets.last() == Some(&EDGES);
    if ends && offsets.is_sorted() && targets.iter().all(|target| *target < VERTICES) {
        0
    } else {
        11
    }
}

// Draws rows and damages one offset and, in some rounds, one target.
fn make(offsets: &mut [u16], targets: &mut [u16], round: u16, seed: u64) {
    let mut sources = [0u16; 20];
    draw(&mut sources, targets, offsets, VERTICES, EDGES, seed);
    put(offsets, below(seed, 10), below(leap(seed), 24));
    if round % 4 == 0 {
        put(targets, below(seed, 20), below(next(seed), 11));
    }
}

// Whether the rows are written, and read back as they were.
fn comes_back(offsets: &[u16], targets: &[u16]) -> bool {
    let mut file = [0u8; 102];
    let mut got_offsets = [0u16; 10];
    let mut got_targets = [0u16; 20];
    let mut marks = [0u16; 20];
    let lengths = reading::needs(VERTICES, EDGES);
    let answer = writer::write(offsets, targets, &mut file);
    let back = reading::reads(
        &file,
        &mut got_offsets,
        &mut got_targets,
        &mut marks,
        lengths,
        offsets,
        targets,
        VERTICES,
        EDGES,
    );
    answer.is_ok() & back
}

fn is_refused(offsets: &[u16], targets: &[u16], number: usize) -> bool {
    let mut file = [0u8; 102];
    writing::refuses(
        offsets,
        targets,
        &mut file,
        writing::needs(VERTICES, EDGES),
        number,
    )
}

fn is_right(offsets: &[u16], targets: &[u16], number: usize) -> bool {
    if number == 0 {
        comes_back(offsets, targets)
    } else {
        is_refused(offsets, targets, number)
    }
}

// The tally with one case more, where the round's rows must be answered with this number.
fn judged(tally: Tally, number: usize, round: u16, seed: u64) -> Tally {
    let mut offsets = [0u16; 10];
    let mut targets = [0u16; 20];
    make(&mut offsets, &mut targets, round, seed);
    if expected(&offsets, &targets) != number {
        return tally;
    }
    tally.with(is_right(&offsets, &targets, number))
}

// All rounds whose rows must be answered with this number.
fn rounds(number: usize) -> Tally {
    let mut tally = Tally::new();
    let mut state: u64 = 8;
    for round in 0..ROUND_COUNT {
        state = leap(state);
        tally = judged(tally, number, round, state);
    }
    tally
}

pub fn run(rt: &impl Print) -> io::Result<()> {
    rounds(0).print(rt, "damaged rows that are written")?;
    rounds(11).print(rt, "damaged rows that are refused")
}
