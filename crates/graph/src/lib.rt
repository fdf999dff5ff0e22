// The adjacency file: its reader. Its writer is crate `writer`, the view of one vertex's edges `view`.
//
// The outside call is `read`; it assumes nothing. `Survey` is a file that passed its first tests, `steps`
// has the steps of reading, which the search and the checker share, and `words` the access to words and
// list elements.
#![tactic(auto)]

mod reader;
pub mod steps;
mod survey;
pub mod words;

pub use reader::read;
pub use survey::{Size, Survey};
