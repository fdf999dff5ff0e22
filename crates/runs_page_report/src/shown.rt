// Outputs written whole: case A of document 01, from its source and from another vertex, with a wrong
// parent, and an empty input.
use crate::inputs::put_square;
use pagekit::BLANK;
use std::io;
use testkit::files::first;

// Writes a name and the output.
fn show(rt: &impl Print, name: &str, input: &[u8]) -> io::Result<()> {
    let mut output = [BLANK; 87738];
    let count = page_report::respond(input, &mut output);
    println!(rt; "{name}")?;
    rt.write_all(first(&output, count))
}

// Case A from a vertex on, with these labels.
fn square(
    rt: &impl Print,
    name: &str,
    source: u16,
    distances: &[u16],
    parents: &[u16],
) -> io::Result<()> {
    let mut input = [0u8; 48];
    put_square(&mut input, source, distances, parents);
    show(rt, name, &input)
}

pub fn run(rt: &impl Print) -> io::Result<()> {
    square(rt, "case A", 0, &[0, 1, 1, 2], &[0, 0, 0, 1])?;
    square(
        rt,
        "case A from device 1",
        1,
        &[65535, 0, 65535, 1],
        &[65535, 1, 65535, 1],
    )?;
    square(rt, "a wrong parent", 0, &[0, 1, 1, 2], &[0, 0, 0, 0])?;
    show(rt, "empty input", &[])
}
