// What the runs of the bags share: four bags in one pool and the operations on them, a walk over the
// node lists that is the test's own, and plain counts of what it finds.
#![tactic(auto)]

pub mod contents;
pub mod counts;
pub mod family;
pub mod walk;
