// What reading a file must answer and give, found in another way than the library's: without marks,
// by the list of all records in the order in which the chains meet them.
use testkit::files::{first, word};
use testkit::reading::Lengths;
use testkit::sample::{after, file_length, record_place};
use testkit::words::put;

// 1 or 2, by the first words of the file and its length.
fn check_header(file: &[u8]) -> Result<(), usize> {
    let n = word(file, 0);
    let m = word(file, 1);
    if file.len() < 4 {
        return Err(1);
    }
    if n == 0 || 4096 < n || 32768 < m {
        return Err(2);
    }
    if file.len() != file_length(n, m) {
        return Err(1);
    }
    Ok(())
}

// The index that starts the chain of a vertex.
fn head(file: &[u8], vertex: u16) -> u16 {
    word(file, 2 + usize::from(vertex))
}

fn target(file: &[u8], vertices: u16, record: u16) -> u16 {
    word(file, record_place(vertices, record))
}

fn next(file: &[u8], vertices: u16, record: u16) -> u16 {
    word(file, record_place(vertices, record) + 1)
}

// 4 where a head or a next index passes m, then 3 where a target is no vertex.
fn check_words(file: &[u8], vertices: u16, edges: u16) -> Result<(), usize> {
    if (0..vertices).any(|vertex| edges < head(file, vertex)) {
        return Err(4);
    }
    if (1..=edges).any(|record| edges < next(file, vertices, record)) {
        return Err(4);
    }
    if (1..=edges).any(|record| vertices <= target(file, vertices, record)) {
        return Err(3);
    }
    Ok(())
}

// 20 where a list is shorter than its need.
fn check_lists(lengths: Lengths, vertices: u16, edges: u16) -> Result<(), usize> {
    let n = usize::from(vertices);
    let m = usize::from(edges);
    if lengths.offsets <= n || lengths.targets < m || lengths.marks < m {
        return Err(20);
    }
    Ok(())
}

// A walk of all chains of a file, and the lists that it fills: the rows' ends, the targets and the
// records in the order in which they are met. It is at the vertices whose chains were begun, the
// record to meet next or 0, and how many records were met.
#[derive(Drop)]
struct Walk<'a> {
    file: &'a [u8],
    vertices: u16,
    rows: &'a mut [u16],
    row_targets: &'a mut [u16],
    seen: &'a mut [u16],
    vertex: u16,
    record: u16,
    count: u16,
}

impl Walk<'_> {
    // The walk stands at the end of a chain: it notes the row's end and begins the next chain.
    fn begin(&mut self) {
        put(self.rows, self.vertex, self.count);
        if self.vertex < self.vertices {
            self.record = head(self.file, self.vertex);
            self.vertex = after(self.vertex);
        }
    }

    // The walk meets a record.
    fn meet(&mut self) {
        put(self.seen, self.count, self.record);
        let met = target(self.file, self.vertices, self.record);
        put(self.row_targets, self.count, met);
        self.record = next(self.file, self.vertices, self.record);
        self.count = after(self.count);
    }

    fn step(&mut self) {
        if self.record == 0 {
            self.begin();
        } else {
            self.meet();
        }
    }

    // Whether a record was met twice.
    fn has_repeat(&self) -> bool {
        let met = self.seen.iter().take(usize::from(self.count));
        met.enumerate().any(|(i, record)| self.seen.iter().take(i).any(|earlier| earlier == record))
    }

    // 5 or 6, by what the whole walk met. A walk that has not come to the end of its last chain
    // after all its steps met a record twice.
    fn check(&self, edges: u16) -> Result<(), usize> {
        if self.record != 0 || self.has_repeat() {
            return Err(5);
        }
        if self.count < edges {
            return Err(6);
        }
        Ok(())
    }
}

// Walks all chains. One step for each vertex, each record and the end is enough: more records than
// there are show that one was met twice.
fn check_chains(mut walk: Walk, edges: u16) -> Result<(), usize> {
    let steps = usize::from(walk.vertices) + usize::from(edges) + 1;
    for _ in 0..steps {
        walk.step();
    }
    walk.check(edges)
}

// The refusal of the first `lengths.file` bytes and lists of these lengths. Where there is none, the
// rows are those of the file. `seen` is working room.
fn check(
    file: &[u8],
    lengths: Lengths,
    rows: &mut [u16],
    row_targets: &mut [u16],
    seen: &mut [u16],
) -> Result<(), usize> {
    let vertices = word(file, 0);
    let edges = word(file, 1);
    check_header(first(file, lengths.file))?;
    check_words(file, vertices, edges)?;
    check_lists(lengths, vertices, edges)?;
    let walk = Walk {
        file,
        vertices,
        rows,
        row_targets,
        seen,
        vertex: 0,
        record: 0,
        count: 0,
    };
    check_chains(walk, edges)
}

// The number that reading must answer: 0, or the refusal's.
pub fn predict(
    file: &[u8],
    lengths: Lengths,
    rows: &mut [u16],
    row_targets: &mut [u16],
    seen: &mut [u16],
) -> usize {
    match check(file, lengths, rows, row_targets, seen) {
        Ok(()) => 0,
        Err(number) => number,
    }
}
