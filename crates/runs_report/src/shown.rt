// Outputs written whole: document 01's cases, a search that a short schedule leaves at each of its
// first moves, and an empty input.
use crate::inputs::{compose, parts_of, put_square};
use crate::replies::BLANK;
use searchkit::bench;
use std::io;
use testkit::files::{first, put};

// Writes a name and the output.
fn show(rt: &impl Print, name: &str, input: &[u8]) -> io::Result<()> {
    let mut output = [BLANK; 8280];
    let count = report::respond(input, &mut output);
    println!(rt; "{name}")?;
    rt.write_all(first(&output, count))
}

// Case A, with the first bytes of its schedule.
fn square(rt: &impl Print, name: &str, events: u16) -> io::Result<()> {
    let mut input = [0u8; 64];
    let length = put_square(&mut input, events);
    show(rt, name, first(&input, length))
}

// Case B: events 18 and 19 are swapped.
fn swapped(rt: &impl Print, name: &str) -> io::Result<()> {
    let mut input = [0u8; 64];
    let length = put_square(&mut input, 25);
    put(&mut input, 23, 0);
    put(&mut input, 24, 8);
    show(rt, name, first(&input, length))
}

// Cases C to I, from row 0 on.
fn point(rt: &impl Print, name: &str, row: u16) -> io::Result<()> {
    let mut file = [0u8; 10];
    let mut schedule = [0u8; 2];
    let mut input = [0u8; 64];
    bench::make_file(&mut file, row);
    bench::make_schedule(&mut schedule, row);
    let request = bench::point(row);
    let lent = first(&file, request.file);
    let length = compose(&mut input, parts_of(request), &schedule, lent);
    show(rt, name, first(&input, length))
}

fn points(rt: &impl Print) -> io::Result<()> {
    for (name, row) in [
        ("case C", 0),
        ("case D", 1),
        ("case E", 2),
        ("case F", 3),
        ("case G", 4),
        ("case H", 5),
        ("case I", 6),
    ] {
        point(rt, name, row)?;
    }
    Ok(())
}

// Case A's schedule after so many bytes: taken, looked, marked, named, stowed; then a layer later.
fn starts(rt: &impl Print) -> io::Result<()> {
    for (name, events) in [
        ("case A, 0 events", 0),
        ("case A, 3 events", 3),
        ("case A, 4 events", 4),
        ("case A, 17 events", 17),
        ("case A, 24 events", 24),
    ] {
        square(rt, name, events)?;
    }
    Ok(())
}

pub fn run(rt: &impl Print) -> io::Result<()> {
    square(rt, "case A", 25)?;
    swapped(rt, "case B")?;
    points(rt)?;
    starts(rt)?;
    show(rt, "empty input", &[])
}
