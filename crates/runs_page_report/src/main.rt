// Runs `page_report::respond` on case A of document 01, on inputs for every number of its order, on
// cut, overlong and drawn inputs, and with output lists of every length; and
// `page_report::respond_in` on the longest input, shorter and longer ones. Small outputs are written
// whole; for the rest a line for each group: how many cases it had, and how many went wrong.
#![tactic(auto)]

mod buffers;
mod cuts;
mod drawn;
mod faults;
mod groups;
mod inputs;
mod replies;
mod rooms;
mod shown;
mod sizes;
mod tables;

use std::io;

fn main(rt: HostRuntime) -> io::Result<()> {
    shown::run(&rt)?;
    groups::run(&rt)
}
