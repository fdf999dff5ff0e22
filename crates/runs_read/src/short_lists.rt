// Every lent list one short, at its need and longer, in all combinations, for one graph; and each
// alone one short, the file too, for a graph of the largest size.
use crate::drawn;
use std::io;
use testkit::group::{Tally, all};
use testkit::reading::{Lengths, needs};
use testkit::sample::file_length;
use testkit::words::{choices, extra, short};

const VERTICES: u16 = 37;

const EDGES: u16 = 101;

// The lists' lengths.
fn lent([offsets, targets, marks]: [u16; 3]) -> Lengths {
    Lengths {
        file: file_length(VERTICES, EDGES),
        offsets: 37 + extra(offsets),
        targets: 100 + extra(targets),
        marks: 100 + extra(marks),
    }
}

// 20 where one of the lists is one short.
fn expected(choices: [u16; 3]) -> usize {
    if choices.contains(&0) { 20 } else { 0 }
}

fn combinations() -> Tally {
    all(0..27, |combination| {
        let chosen = choices(combination);
        drawn::is_right(VERTICES, EDGES, lent(chosen), expected(chosen))
    })
}

fn largest_is_right(lent: Lengths, number: usize) -> bool {
    drawn::is_right(4096, 32768, lent, number)
}

// The largest size, with one list short.
fn largest() -> Tally {
    let need = needs(4096, 32768);
    let file = Lengths {
        file: short(need.file),
        ..need
    };
    let offsets = Lengths {
        offsets: short(need.offsets),
        ..need
    };
    let targets = Lengths {
        targets: short(need.targets),
        ..need
    };
    let marks = Lengths {
        marks: short(need.marks),
        ..need
    };
    Tally::new()
        .with(largest_is_right(file, 1))
        .with(largest_is_right(offsets, 20))
        .with(largest_is_right(targets, 20))
        .with(largest_is_right(marks, 20))
}

pub fn run(rt: &impl Print) -> io::Result<()> {
    combinations().print(rt, "lengths of the lists")?;
    largest().print(rt, "largest file, one list short")
}
