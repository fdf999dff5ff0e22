// Runs the operations of crate `bag` on one bag or two against plain counts that are kept apart from
// it, and writes a line for each group: how many cases it had, and how many went wrong. Crate
// `bagkit` has the counts, and the walk that they come from.
#![tactic(auto)]

mod largest;
mod order;
mod splits;

use std::io;

fn main(rt: HostRuntime) -> io::Result<()> {
    splits::run(&rt)?;
    order::run(&rt)?;
    largest::run(&rt)
}
