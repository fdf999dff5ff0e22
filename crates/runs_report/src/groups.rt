// The groups that are tables or draws: the cases of a group are tried one after the other.
use crate::{buffers, cuts, drawn, faults, rooms, sizes, tables};
use searchkit::refusals;
use std::io;
use testkit::group::all;

pub fn run(rt: &impl Print) -> io::Result<()> {
    let heads = all(tables::HEAD_CASES.iter(), tables::head_is_right);
    let sizes = all(tables::SIZE_CASES.iter(), tables::size_is_right);
    heads.and(sizes).print(rt, "the program's own order")?;
    all(0..refusals::ROWS, tables::is_right).print(rt, "refusals")?;
    all(0..faults::COMBINATIONS, faults::is_right).print(rt, "sets of faults")?;
    cuts::run().print(rt, "cut and longer inputs")?;
    all(sizes::CASES.iter(), sizes::is_right).print(rt, "sizes")?;
    all(0..drawn::ROUND_COUNT, drawn::is_right).print(rt, "drawn graphs")?;
    rooms::run().print(rt, "lengths of the output list")?;
    all(buffers::CASES.iter(), buffers::is_right).print(rt, "the program's buffers")
}
