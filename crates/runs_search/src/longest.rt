// The longest schedule, which finishes the search with its last byte; and one that is too long.
use crate::rooms::Small;
use searchkit::requests::{Request, needs};
use std::io;
use testkit::files::{first, put};
use testkit::group::Tally;
use testkit::sample::Graph;

const MOST: usize = 5000000;

// Whether the answer to the schedule, for one vertex and one worker, has this number, and
// as many events, and the lists are left as they must be.
fn answers(schedule: &[u8], number: usize, used: usize, effective: usize) -> bool {
    let request = Request {
        source: 0,
        workers: 1,
        vertices: 1,
        edges: 0,
        file: 6,
        schedule: schedule.len(),
        lengths: needs(1, 0, 1, 0),
    };
    let graph = Graph {
        file: &[1, 0, 0, 0, 0, 0],
        rows: &[0, 0],
        row_targets: &[],
    };
    let done = Small::new().call(graph, schedule, request);
    let seen = done.seen;
    let numbers = (seen.number == number) & (seen.used == used) & (seen.effective == effective);
    done.right & numbers
}

// Both cases. The last byte but one is the close, all others are work.
fn cases(schedule: &mut [u8; 5000001]) -> Tally {
    put(schedule, MOST - 1, 192);
    let longest = answers(first(schedule, MOST), 0, MOST, 2);
    let too_long = answers(schedule, 9, 0, 0);
    Tally::new().with(longest).with(too_long)
}

pub fn run(rt: &impl Print) -> io::Result<()> {
    let mut schedule = [0u8; 5000001];
    cases(&mut schedule).print(rt, "longest schedule")
}
