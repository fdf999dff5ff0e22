// The search under a schedule: up to eight workers share one layered breadth-first search, in the
// order that the schedule's event bytes say. `search` is the outside call; it assumes nothing.
#![tactic(auto)]

mod call;

pub use call::{number, search};
pub use engine::{Answer, Ending};

// The lengths of the lent lists, without the lists: so the tests come before any list is lent on. The
// checker's are other lists.
#[derive(Clone, Copy)]
pub struct Lengths {
    pub offsets: usize,
    pub targets: usize,
    pub marks: usize,
    pub distances: usize,
    pub parents: usize,
    pub histogram: usize,
    pub left: usize,
    pub right: usize,
    pub values: usize,
}
