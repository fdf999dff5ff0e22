// Runs `page::page` on results of every size and kind, on inputs for every number of refusal, and on
// lists of every length. Some pages are written whole; for the rest a line for each group: how many
// cases it had, how many went wrong, how many were laid out, and how many were refused for the page
// list alone. What stands on a page is compared with a layout by each byte's place, whether a result
// is right is judged by a queue search of the same graph.
#![tactic(auto)]

mod calls;
mod drawn;
mod groups;
mod plans;
mod shown;

use std::io;

fn main(rt: HostRuntime) -> io::Result<()> {
    shown::run(&rt)?;
    groups::run(&rt)
}
