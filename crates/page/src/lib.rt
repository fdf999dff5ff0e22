// A page for the folder: the distances and parents of a finished result, laid out in lines for paper.
// `page` is the outside call; it assumes nothing.
#![tactic(auto)]

mod call;
mod layout;

pub use call::page;
pub use layout::page_need;

// "lines of exactly 20 characters and a line feed"
pub const LINE_BYTES: usize = 21;

// "up to 50 device lines"
pub const PAGE_VERTICES: usize = 50;
