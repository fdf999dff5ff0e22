// The program's whole work as one function from its input bytes to its output bytes: `respond`, and
// `respond_in`, the same in the program's buffers; outside calls, which assume nothing. Reading
// and writing are the program's.
#![tactic(auto)]

mod input;
mod lines;
mod program;

pub use program::{respond, respond_in};

// "Its own sizes: n 512 .."
pub const PROGRAM_VERTICES: usize = 512;

// ".. m 2,048 .."
pub const PROGRAM_EDGES: usize = 2048;

// ".. sheet 8,192."
pub const PROGRAM_EVENTS: usize = 8192;

// The longest input that can be accepted: three words, the largest sheet and the largest file.
pub const LONGEST_INPUT: usize = 6
    + PROGRAM_EVENTS
    + 2 * (2 + PROGRAM_VERTICES + 2 * PROGRAM_EDGES);

// The places of the program's input buffer: one more than the longest input, so that a longer one
// fills the buffer and is refused.
pub const INPUT_PLACES: usize = LONGEST_INPUT + 1;

// Room for any output: four numbers of at most 20 digits in line one, a vertex of 3 and two labels
// of 5 digits in each other line.
pub const OUTPUT_PLACES: usize = 8276;
