// The page program: `page_report::respond_in` between standard input and standard output. The library
// says how long the two buffers are.
#![tactic(auto)]

use std::io;

// Reads, answers, and writes. `hopmap` has these lines with its own sizes: one function of both would take two
// const parameters and the answer as a closure, to save four lines.
fn main(rt: HostRuntime) -> io::Result<()> {
    let mut input = [0u8; page_report::INPUT_PLACES];
    let mut output = [0u8; page_report::OUTPUT_PLACES];
    let length = intake::fill(&mut rt.stdin(), &mut input)?;
    let count = page_report::respond_in(&input, length, &mut output);
    rt.write_all(&output[..count])
}
