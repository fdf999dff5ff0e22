// There and back: random rows are written and read, files with their records in any order are read
// and written. Empty rows, parallel edges and edges to oneself come up by themselves.
use crate::writing;
use std::io;
use testkit::files::first;
use testkit::group::Tally;
use testkit::random::{below, leap, next};
use testkit::reading;
use testkit::sample::{draw, encode_in_order, encode_shuffled};

const ROUND_COUNT: u16 = 200;

// Few vertices or some hundreds, 1 at least.
fn drawn_vertices(round: u16, seed: u64) -> u16 {
    if round % 3 == 0 {
        return below(seed, 6) % 6 + 1;
    }
    below(seed, 300) % 300 + 1
}

// No edges, few, or some hundreds.
fn drawn_edges(round: u16, seed: u64) -> u16 {
    match round % 10 {
        0 => 0,
        1 => below(seed, 20),
        _ => below(seed, 900),
    }
}

// A drawn graph: its rows, the file that the writer must make of them, and one with shuffled records.
#[derive(Drop)]
struct Sample {
    vertices: u16,
    edges: u16,
    offsets: [u16; 310],
    targets: [u16; 910],
    canonical: [u8; 4300],
    shuffled: [u8; 4300],
}

impl Sample {
    fn drawn(vertices: u16, edges: u16, seed: u64) -> Self {
        let mut sources = [0u16; 1000];
        let mut order = [0u16; 1000];
        let mut offsets = [0u16; 310];
        let mut targets = [0u16; 910];
        let mut canonical = [0u8; 4300];
        let mut shuffled = [0u8; 4300];
        draw(
            &mut sources,
            &mut targets,
            &mut offsets,
            vertices,
            edges,
            seed,
        );
        encode_in_order(
            &mut canonical,
            vertices,
            edges,
            &sources,
            &targets,
            &mut order,
        );
        encode_shuffled(
            &mut shuffled,
            vertices,
            edges,
            &sources,
            &targets,
            &mut order,
            leap(seed),
        );
        Sample {
            vertices,
            edges,
            offsets,
            targets,
            canonical,
            shuffled,
        }
    }

    // Whether the writer makes its file of these rows.
    fn is_written(&self, offsets: &[u16], targets: &[u16], file: &mut [u8]) -> bool {
        let need = writing::needs(self.vertices, self.edges);
        let want = first(&self.canonical, need.file);
        writing::writes(offsets, targets, file, need, want)
    }

    // Whether the graph's rows are read from this file.
    fn is_read(&self, file: &[u8], offsets: &mut [u16], targets: &mut [u16]) -> bool {
        let mut marks = [0u16; 910];
        reading::reads(
            file,
            offsets,
            targets,
            &mut marks,
            reading::needs(self.vertices, self.edges),
            &self.offsets,
            &self.targets,
            self.vertices,
            self.edges,
        )
    }

    // Rows to a file, and the file that was written back to the rows; then the file with shuffled
    // records to rows, and the rows that were read to the writer's file.
    fn trips(&self) -> Tally {
        let mut file = [0u8; 4300];
        let mut offsets = [0u16; 310];
        let mut targets = [0u16; 910];
        Tally::new()
            .with(self.is_written(&self.offsets, &self.targets, &mut file))
            .with(self.is_read(&file, &mut offsets, &mut targets))
            .with(self.is_read(&self.shuffled, &mut offsets, &mut targets))
            .with(self.is_written(&offsets, &targets, &mut file))
    }
}

fn rounds() -> Tally {
    let mut tally = Tally::new();
    let mut state: u64 = 6;
    for round in 0..ROUND_COUNT {
        state = leap(state);
        let vertices = drawn_vertices(round, state);
        let edges = drawn_edges(round, next(state));
        tally = tally.and(Sample::drawn(vertices, edges, state).trips());
    }
    tally
}

pub fn run(rt: &impl Print) -> io::Result<()> {
    rounds().print(rt, "round trips")
}
