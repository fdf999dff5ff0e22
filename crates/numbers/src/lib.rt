// Document 01's sizes, and why a call turns its input down, as the code names them. specs/Numbers.antt
// has the same for the contracts, with document 01's number for each.
#![tactic(auto)]

mod refused;

pub use refused::{Refused, told};

// Sizes.
pub const MAX_VERTICES: usize = 4096;

pub const MAX_EDGES: usize = 32768;

pub const MAX_WORKERS: usize = 8;

pub const MAX_EVENTS: usize = 5000000;

// An unset distance or parent, in 16-bit lists.
pub const UNSET: u16 = 65535;

// The same as a `usize`, for words that were made wide. No `From` is called in a constant.
pub const WIDE_UNSET: usize = UNSET as usize;

// The answer's number where a call turns nothing down.
pub const SUCCESS: usize = 0;

// "21: the sheet is spent and the search isn't finished": lists are written all the same, so it is no
// refusal.
pub const UNFINISHED: usize = 21;
