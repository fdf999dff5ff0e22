// The groups: one loop goes through the cases of a group.
use crate::calls::answers;
use crate::drawn;
use crate::group_sums::{Outcome, Sums};
use crate::plans::{Group, LARGE_CASES, SIZE_CASES};
use checkkit::plans::COMBINATIONS;
use checkkit::queries::Labels;
use checkkit::tables;
use checkkit::tables::Table;
use std::io;
use testkit::sample::Graph;

// How many graphs are drawn for right results and longer paths, for other results, for changes, and
// for changes with longer lists.
const GRAPHS: u16 = 300;

const OTHERS: u16 = 1200;

const CHANGED: u16 = 100;

const LONG: u16 = 20;

// A case of a table.
fn tabled(table: Table, case: u16) -> Outcome {
    let mut file = [0u8; 32];
    let mut distances = tables::DISTANCES;
    let mut parents = tables::PARENTS;
    let made = tables::make(table, case, &mut file);
    let query = made.query;
    tables::put_labels(made.labels, &mut distances, &mut parents);
    let graph = Graph {
        file: &file,
        rows: &tables::ROWS,
        row_targets: &tables::ROW_TARGETS,
    };
    let labels = Labels {
        distances: &distances,
        parents: &parents,
    };
    Outcome {
        number: query.number,
        right: answers(graph, query, labels),
    }
}

// All cases of a group of drawn graphs.
fn all_drawn(group: Group, cases: u16) -> Sums {
    let mut sums = Sums::new();
    for case in 0..cases {
        sums = sums.and(drawn::sums_of(group, case));
    }
    sums
}

// All cases of a table.
fn all_tabled(table: Table, cases: u16) -> Sums {
    let mut sums = Sums::new();
    for case in 0..cases {
        sums = sums.with(tabled(table, case));
    }
    sums
}

// A group's line, and how many of its results were wrong.
fn print(rt: &impl Print, name: &str, sums: Sums) -> io::Result<()> {
    let Sums { tally, tens } = sums;
    tally.print(rt, name)?;
    println!(rt; "{tens} of them number 10")
}

// Results of small graphs.
fn run_results(rt: &impl Print) -> io::Result<()> {
    print(rt, "right results", all_drawn(Group::Right, GRAPHS))?;
    print(rt, "changed labels", all_drawn(Group::Vertices, CHANGED))?;
    print(rt, "other edges", all_drawn(Group::Edges, CHANGED))?;
    print(rt, "longer lists", all_drawn(Group::LongLists, LONG))?;
    print(rt, "longer paths", all_drawn(Group::LongerPaths, GRAPHS))?;
    print(rt, "other results", all_drawn(Group::Others, OTHERS))
}

// Refusals, lengths and sizes.
fn run_inputs(rt: &impl Print) -> io::Result<()> {
    let refusals = all_tabled(Table::Refusals, tables::REFUSAL_CASES);
    print(rt, "refusals", refusals)?;
    let sources = all_tabled(Table::Sources, tables::SOURCE_CASES);
    print(rt, "sources", sources)?;
    let faults = all_tabled(Table::Faults, tables::FAULT_CASES);
    print(rt, "sets of faults", faults)?;
    print(rt, "lengths", all_drawn(Group::Lengths, COMBINATIONS))?;
    print(rt, "sizes", all_drawn(Group::Sizes, SIZE_CASES))?;
    print(rt, "largest graphs", all_drawn(Group::Largest, LARGE_CASES))
}

pub fn run(rt: &impl Print) -> io::Result<()> {
    run_results(rt)?;
    run_inputs(rt)
}
