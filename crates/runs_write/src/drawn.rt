// Rows of drawn graphs, of any size and at any lengths of the lists.
use crate::writing::{Lengths, answers};
use testkit::files::first;
use testkit::sample::{draw, encode_in_order, file_length};

// Draws a graph and makes the file that is wanted of it.
fn make(offsets: &mut [u16], targets: &mut [u16], want: &mut [u8], vertices: u16, edges: u16) {
    let mut sources = [0u16; 32769];
    let mut order = [0u16; 32769];
    draw(&mut sources, targets, offsets, vertices, edges, 11);
    encode_in_order(want, vertices, edges, &sources, targets, &mut order);
}

// Writes the rows of a drawn graph of this size. Places past the rows hold what no row may have.
pub fn is_right(vertices: u16, edges: u16, lengths: Lengths, number: usize) -> bool {
    let mut offsets = [65535u16; 4099];
    let mut targets = [65535u16; 32770];
    let mut want = [0u8; 139280];
    let mut file = [0u8; 139280];
    make(&mut offsets, &mut targets, &mut want, vertices, edges);
    let length = file_length(vertices, edges);
    let whole = first(&want, length);
    answers(&offsets, &targets, &mut file, lengths, number, whole)
}
