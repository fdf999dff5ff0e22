// The lists of a call of the writer one short, at their need and longer, in all combinations, for
// one graph; and each alone one short for a graph of the largest size. The writer reads its sizes off
// the rows' lengths, so that only the bytes may be longer.
use crate::drawn;
use crate::writing::{Lengths, needs};
use std::io;
use testkit::group::{Tally, all};
use testkit::words::{choices, extra, short};

const VERTICES: u16 = 37;

const EDGES: u16 = 101;

// The lists' lengths. The file has 482 bytes.
fn lent([offsets, targets, file]: [u16; 3]) -> Lengths {
    Lengths {
        offsets: 37 + extra(offsets),
        targets: 100 + extra(targets),
        file: 481 + extra(file),
    }
}

// 11 where the rows have another length, then 20 where the file is one short.
fn expected(choices: [u16; 3]) -> usize {
    match choices {
        [1, 1, 0] => 20,
        [1, 1, _] => 0,
        _ => 11,
    }
}

fn combinations() -> Tally {
    all(0..27, |combination| {
        let chosen = choices(combination);
        drawn::is_right(VERTICES, EDGES, lent(chosen), expected(chosen))
    })
}

fn largest_is_right(lent: Lengths, number: usize) -> bool {
    drawn::is_right(4096, 32768, lent, number)
}

// The largest size, with one list short.
fn largest() -> Tally {
    let need = needs(4096, 32768);
    let offsets = Lengths {
        offsets: short(need.offsets),
        ..need
    };
    let targets = Lengths {
        targets: short(need.targets),
        ..need
    };
    let file = Lengths {
        file: short(need.file),
        ..need
    };
    Tally::new()
        .with(largest_is_right(offsets, 11))
        .with(largest_is_right(targets, 11))
        .with(largest_is_right(file, 20))
}

pub fn run(rt: &impl Print) -> io::Result<()> {
    combinations().print(rt, "lengths of the writer's lists")?;
    largest().print(rt, "largest rows, one list short")
}
