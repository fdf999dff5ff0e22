// The checker of a finished result: are these distances and parents right for this file and this
// source? `check` is the outside call; it assumes nothing.
#![tactic(auto)]

mod call;
mod certificate;

pub use call::check;

// The lengths of the lent lists, without the lists: so the tests come before any list is lent on. The
// search's are other lists.
#[derive(Clone, Copy)]
pub struct Lengths {
    pub distances: usize,
    pub parents: usize,
    pub offsets: usize,
    pub targets: usize,
    pub marks: usize,
}
