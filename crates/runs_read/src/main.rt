// Runs `graph::read` on files of every kind and writes a line for each group: how many cases it
// had, and how many went wrong.
#![tactic(auto)]

mod damage;
mod drawn;
mod oracle;
mod refusals;
mod short_lists;
mod sizes;

use std::io;

fn main(rt: HostRuntime) -> io::Result<()> {
    refusals::run(&rt)?;
    sizes::run(&rt)?;
    short_lists::run(&rt)?;
    damage::run(&rt)
}
