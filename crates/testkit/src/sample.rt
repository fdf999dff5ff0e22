// Graphs for the tests, as a list of edges in row order: the source and the target of each. From it
// come the rows, and a file whose records stand in any order.
ghost use Rattle.std.specs.Prelude.{◌<◌};

use crate::files::put_word;
use crate::random;
use crate::words::{at, put};

// A file and the rows of its graph.
#[derive(Clone, Copy)]
pub struct Graph<'a> {
    pub file: &'a [u8],
    pub rows: &'a [u16],
    pub row_targets: &'a [u16],
}

// A graph's edges in row order, and the numbers of their records.
#[derive(Drop)]
struct Records<'a> {
    vertices: u16,
    edges: u16,
    sources: &'a [u16],
    targets: &'a [u16],
    order: &'a [u16],
}

impl Records<'_> {
    // The record after the one of an edge, or 0 where the edge is the last of its row.
    fn next(&self, edge: u16) -> u16 {
        let next = after(edge);
        let goes_on = next < self.edges && at(self.sources, next) == at(self.sources, edge);
        if goes_on { at(self.order, next) } else { 0 }
    }

    // Whether the edge is the first of its row.
    fn is_first(&self, edge: u16) -> bool {
        edge == 0 || at(self.sources, edge - 1) != at(self.sources, edge)
    }

    // Stores n, m, and a head of 0 for each vertex.
    fn put_empty(&self, file: &mut [u8]) {
        put_word(file, 0, self.vertices);
        put_word(file, 1, self.edges);
        for vertex in 0..self.vertices {
            put_word(file, 2 + usize::from(vertex), 0);
        }
    }

    // Stores the record of one edge, and the head of its chain where the edge is the first of its row.
    fn put_edge(&self, file: &mut [u8], edge: u16) {
        let source = at(self.sources, edge);
        let record = at(self.order, edge);
        let place = record_place(self.vertices, record);
        put_word(file, place, at(self.targets, edge));
        put_word(file, place + 1, self.next(edge));
        if self.is_first(edge) {
            put_word(file, 2 + usize::from(source), record);
        }
    }

    // Makes the file.
    fn encode(&self, file: &mut [u8]) {
        self.put_empty(file);
        for edge in 0..self.edges {
            self.put_edge(file, edge);
        }
    }
}

// The length in bytes of a file.
pub fn file_length(vertices: u16, edges: u16) -> usize {
    2 * (2 + usize::from(vertices) + 2 * usize::from(edges))
}

// The source of the edge after one at `source`: the same, or some vertices on. On average the
// sources of all edges spread over all vertices.
fn next_source(source: u16, vertices: u16, edges: u16, seed: u64) -> u16 {
    if edges == 0 {
        return source;
    }
    let far = usize::from(random::below(seed, vertices));
    let rest = usize::from(random::below(random::leap(seed), edges));
    let steps = (2 * far + rest) / usize::from(edges);
    let next = usize::from(source).wrapping_add(steps);
    if next < usize::from(vertices) {
        next as u16
    } else {
        source
    }
}

// Draws the sources of all edges, in rising order.
fn draw_sources(sources: &mut [u16], vertices: u16, edges: u16, seed: u64) {
    let mut source: u16 = 0;
    let mut state = seed;
    for x in sources.iter_mut().take(usize::from(edges)) {
        state = random::next(state);
        source = next_source(source, vertices, edges, state);
        *x = source;
    }
}

// Draws the targets of all edges.
fn draw_targets(targets: &mut [u16], vertices: u16, edges: u16, seed: u64) {
    let mut state = seed;
    for x in targets.iter_mut().take(usize::from(edges)) {
        state = random::next(state);
        *x = random::below(state, vertices);
    }
}

// One more; the largest number stays.
pub fn after(number: u16) -> u16 {
    number.saturating_add(1)
}

// The rows' offsets, by their meaning: the place of a vertex holds how many edges start before it.
// `vertices + 1` places.
fn offsets_of(offsets: &mut [u16], sources: &[u16], vertices: u16, edges: u16) {
    let mut edge: u16 = 0;
    put(offsets, 0, 0);
    for vertex in 0..vertices {
        edge = row_end(sources, vertex, edge, edges);
        put(offsets, vertex + 1, edge);
    }
}

// The first edge from `start` on that does not start at the vertex.
fn row_end(sources: &[u16], vertex: u16, start: u16, edges: u16) -> u16 {
    (start..edges)
        .find(|edge| at(sources, *edge) != vertex)
        .unwrap_or(start.max(edges))
}

// The order in which `write` numbers the records: edge 0 has record 1.
fn row_order(order: &mut [u16], edges: u16) {
    for (x, record) in order.iter_mut().zip(1..=edges) {
        *x = record;
    }
}

// Swaps two places; the slice's own `swap` asks that both are there.
fn swap(order: &mut [u16], a: u16, b: u16) {
    let first = at(order, a);
    let second = at(order, b);
    put(order, a, second);
    put(order, b, first);
}

// Shuffles the records' numbers.
fn shuffle(order: &mut [u16], edges: u16, seed: u64) {
    let mut state = seed;
    for edge in 0..edges {
        state = random::next(state);
        swap(order, edge, random::below(state, after(edge)));
    }
}

// The place, in words, of a record's target. Its next index stands one place further.
pub fn record_place(vertices: u16, record: u16) -> usize
    ensures { result < 200000 }
{
    usize::from(vertices) + 2 * usize::from(record)
}

// Draws a graph: its edges and its rows' offsets.
pub fn draw(
    sources: &mut [u16],
    targets: &mut [u16],
    offsets: &mut [u16],
    vertices: u16,
    edges: u16,
    seed: u64,
) {
    draw_sources(sources, vertices, edges, seed);
    draw_targets(targets, vertices, edges, random::leap(random::leap(seed)));
    offsets_of(offsets, sources, vertices, edges);
}

// The file that `write` makes of the graph. `order` is working room.
pub fn encode_in_order(
    file: &mut [u8],
    vertices: u16,
    edges: u16,
    sources: &[u16],
    targets: &[u16],
    order: &mut [u16],
) {
    row_order(order, edges);
    let records = Records {
        vertices,
        edges,
        sources,
        targets,
        order,
    };
    records.encode(file);
}

// A file of the graph with its records in a random order. `order` is working room.
pub fn encode_shuffled(
    file: &mut [u8],
    vertices: u16,
    edges: u16,
    sources: &[u16],
    targets: &[u16],
    order: &mut [u16],
    seed: u64,
) {
    row_order(order, edges);
    shuffle(order, edges, seed);
    let records = Records {
        vertices,
        edges,
        sources,
        targets,
        order,
    };
    records.encode(file);
}

// Draws a graph and makes a file of it with its records in a random order. `order` is working room.
pub fn draw_file(
    file: &mut [u8],
    sources: &mut [u16],
    targets: &mut [u16],
    offsets: &mut [u16],
    order: &mut [u16],
    vertices: u16,
    edges: u16,
    seed: u64,
) {
    draw(sources, targets, offsets, vertices, edges, seed);
    encode_shuffled(
        file,
        vertices,
        edges,
        sources,
        targets,
        order,
        random::leap(seed),
    );
}
