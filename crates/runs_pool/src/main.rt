// Runs crate `bag` on pools of nodes against plain counts that are kept apart from it, and writes a
// line for each group: how many cases it had, and how many went wrong. Four bags of one pool under
// random operations, and the lists as a whole. Crate `bagkit` has the counts, and the walk that they
// come from.
#![tactic(auto)]

mod random_operations;
mod swept;

use std::io;

fn main(rt: HostRuntime) -> io::Result<()> {
    random_operations::run(&rt)?;
    swept::run(&rt)
}
