// Runs crate `schedule` against the bytes of events that are composed apart from it, and writes a
// line for each group: how many cases it had, and how many went wrong. The number of every byte
// alone, the event of every byte, and the number of longer schedules.
#![tactic(auto)]

mod composed;
mod events;
mod longer;
mod single;

use std::io;

fn main(rt: HostRuntime) -> io::Result<()> {
    single::run(&rt)?;
    events::run(&rt)?;
    longer::run(&rt)
}
