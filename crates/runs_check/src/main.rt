// Runs `verify::check` on right results of drawn graphs, on results that are wrong in one place or
// as a whole, on inputs for every number of refusal, and on lists of every length, and writes for
// each group how many cases it had, how many went wrong, and how many of the cases had to give 10.
// Whether a result is right is judged by a queue search of the same graph.
#![tactic(auto)]

mod calls;
mod changes;
mod drawn;
mod group_sums;
mod groups;
mod plans;

use std::io;

fn main(rt: HostRuntime) -> io::Result<()> {
    groups::run(&rt)
}
