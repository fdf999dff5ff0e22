// The page program's whole work as one function from its input bytes to its output bytes: `respond`,
// and `respond_in`, the same in the program's buffers; outside calls, which assume nothing.
// Reading and writing are the program's.
#![tactic(auto)]

mod input;
mod program;

use numbers::{MAX_EDGES, MAX_VERTICES};
pub use program::{respond, respond_in};

// The longest input that can be accepted: two words, a distance and a parent for each vertex, and the
// largest file.
pub const LONGEST_INPUT: usize = 4 + 4 * MAX_VERTICES + 2 * (2 + MAX_VERTICES + 2 * MAX_EDGES);

// The places of the program's input buffer: one more than the longest input, so that a longer one
// fills the buffer and is refused.
pub const INPUT_PLACES: usize = LONGEST_INPUT + 1;

// Room for any output: the pages of 4,096 vertices.
pub const OUTPUT_PLACES: usize = 87738;
