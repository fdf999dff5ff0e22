// Runs `search::search` on document 01's cases, on inputs for every number of refusal, on drawn graphs
// under drawn schedules, whole and cut, and on fans and paths, and writes a line for each group: how
// many cases it had, and how many went wrong. Crate `searchkit` has the inputs and what they must
// give.
#![tactic(auto)]

mod drawn;
mod groups;
mod histogram;
mod longest;
mod rooms;
mod tables;

use std::io;

fn main(rt: HostRuntime) -> io::Result<()> {
    groups::run(&rt)?;
    longest::run(&rt)
}
