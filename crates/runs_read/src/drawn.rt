// Files of drawn graphs, of any size and at any lengths of the lists.
use testkit::reading::{Lengths, answers};
use testkit::sample::draw_file;

// Draws a graph of this size, makes its file with the records in a random order, and reads it. With
// the number 0 it must give the rows of that graph.
pub fn is_right(vertices: u16, edges: u16, lengths: Lengths, number: usize) -> bool {
    let mut file = [0u8; 139280];
    let mut sources = [0u16; 32769];
    let mut row_targets = [0u16; 32769];
    let mut rows = [0u16; 4098];
    let mut order = [0u16; 32769];
    draw_file(
        &mut file,
        &mut sources,
        &mut row_targets,
        &mut rows,
        &mut order,
        vertices,
        edges,
        20,
    );
    let mut offsets = [0u16; 4098];
    let mut targets = [0u16; 32769];
    let mut marks = [0u16; 32769];
    answers(
        &file,
        &mut offsets,
        &mut targets,
        &mut marks,
        lengths,
        number,
        &rows,
        &row_targets,
        vertices,
        edges,
    )
}
