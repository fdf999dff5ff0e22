// Pages written whole: case A of document 01, from its source and from another vertex, and paths of
// one vertex and of one more than a page has.
use crate::calls::Room;
use checkkit::graphs::draw;
use checkkit::plans::{Plan, sized};
use checkkit::queries::{Labels, Query};
use checkkit::results;
use checkkit::results::{Kind, UNSET};
use pagekit::need;
use searchkit::base::FILE;
use searchkit::requests::needs;
use std::io;
use testkit::files::{first, put_words};
use testkit::sample::file_length;

// A right result with lists at their need.
fn query_of(plan: Plan) -> Query {
    Query {
        source: usize::from(plan.source),
        vertices: plan.vertices,
        edges: plan.edges,
        file: file_length(plan.vertices, plan.edges),
        lengths: needs(plan.vertices, plan.edges, 1, 0),
        number: 0,
    }
}

// Writes a name and the pages of up to 60 vertices and edges, or the number of a refusal.
fn show(
    rt: &impl Print,
    name: &str,
    plan: Plan,
    file: &[u8],
    distances: &[u16],
    parents: &[u16],
) -> io::Result<()> {
    let mut room = Room::<61, 60, 1302>::zeroed();
    let places = need(plan.vertices);
    let labels = Labels { distances, parents };
    println!(rt; "{name}")?;
    match room.page(file, query_of(plan), places, labels) {
        Ok(()) => rt.write_all(first(&room.bytes, places)),
        Err(refused) => {
            let number = refused.number();
            println!(rt; "refused with {number}")
        }
    }
}

// Case A's file from a vertex on, with these labels.
fn square(
    rt: &impl Print,
    name: &str,
    source: u16,
    distances: &[u16],
    parents: &[u16],
) -> io::Result<()> {
    let mut file = [0u8; 28];
    put_words(&mut file, &FILE);
    let plan = Plan {
        vertices: 4,
        edges: 4,
        source,
        seed: 0,
    };
    show(rt, name, plan, &file, distances, parents)
}

// A path of so many edges, up to 59.
fn path(rt: &impl Print, name: &str, edges: u16) -> io::Result<()> {
    let mut file = [0u8; 370];
    let mut sources = [0u16; 60];
    let mut row_targets = [0u16; 60];
    let mut rows = [0u16; 62];
    let mut order = [0u16; 60];
    let mut distances = [UNSET; 61];
    let mut parents = [UNSET; 61];
    let plan = sized(edges % 64 + 1, edges);
    draw(
        edges,
        plan,
        &mut file,
        &mut sources,
        &mut row_targets,
        &mut rows,
        &mut order,
    );
    results::make(
        Kind::Right,
        plan,
        &sources,
        &rows,
        &row_targets,
        &mut distances,
        &mut parents,
    );
    show(rt, name, plan, &file, &distances, &parents)
}

pub fn run(rt: &impl Print) -> io::Result<()> {
    square(rt, "case A", 0, &[0, 1, 1, 2], &[0, 0, 0, 1])?;
    square(
        rt,
        "case A from device 1",
        1,
        &[UNSET, 0, UNSET, 1],
        &[UNSET, 1, UNSET, 1],
    )?;
    path(rt, "one device", 0)?;
    path(rt, "51 devices in a row", 50)
}
