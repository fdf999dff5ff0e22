// Runs `writer::write`, alone and back through `graph::read`, and the view `view::links`, and writes
// a line for each group: how many cases it had, and how many went wrong.
#![tactic(auto)]

mod damage;
mod drawn;
mod large_views;
mod refusals;
mod short_lists;
mod sizes;
mod trips;
mod views;
mod writing;

use std::io;

fn main(rt: HostRuntime) -> io::Result<()> {
    refusals::run(&rt)?;
    sizes::run(&rt)?;
    short_lists::run(&rt)?;
    damage::run(&rt)?;
    trips::run(&rt)?;
    views::run(&rt)?;
    large_views::run(&rt)
}
