// A file that passed the tests which reader, search and checker begin with, and its n and m.
ghost use Rattle.graph.specs.Steps.{Scanned};

// How many vertices and edges there are.
#[derive(Clone, Copy, Debug, PartialEq, Eq)]
pub struct Size {
    pub vertices: usize,
    pub edges: usize,
}

// The bytes, and how many vertices and edges there are: a value has passed the header's tests and the
// scan, so whoever is given one need not ask again.
#[derive(Clone, Copy)]
pub struct Survey<'a> {
    pub file: &'a [u8],
    pub vertices: usize,
    pub edges: usize,
    pub ghost scanned: { Scanned file.now vertices edges },
}
