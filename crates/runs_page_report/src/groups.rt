// The groups: the cases of a group are tried one after the other.
use crate::{buffers, cuts, drawn, faults, rooms, sizes, tables};
use std::io;
use testkit::group::all;

pub fn run(rt: &impl Print) -> io::Result<()> {
    let own = all(tables::OWN_CASES.iter(), tables::own_is_right);
    own.print(rt, "the program's own order")?;
    all(0..tables::REFUSALS, tables::refusal_is_right).print(rt, "refusals")?;
    all(0..tables::SOURCES, tables::source_is_right).print(rt, "sources")?;
    all(0..faults::COMBINATIONS, faults::is_right).print(rt, "sets of faults")?;
    cuts::run().print(rt, "cut and longer inputs")?;
    all(sizes::CASES.iter(), sizes::is_right).print(rt, "sizes")?;
    all(0..drawn::CASES, drawn::is_right).print(rt, "drawn graphs")?;
    rooms::run().print(rt, "lengths of the output list")?;
    all(buffers::CASES.iter(), buffers::is_right).print(rt, "the program's buffers")
}
