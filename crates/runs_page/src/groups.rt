// The groups: the cases of a group are tried one after the other.
use crate::calls::{Outcome, call};
use crate::plans::Group;
use crate::{drawn, plans};
use checkkit::plans::length;
use checkkit::queries::Labels;
use checkkit::tables;
use checkkit::tables::Table;
use pagekit::need;
use std::io;
use testkit::group::Tally;
use testkit::sample::Graph;

// The tally, how many of the cases had to be laid out, and in how many it was the page list alone
// that was too short.
#[derive(Clone, Copy)]
struct Sums {
    tally: Tally,
    laid: u64,
    late: u64,
}

impl Sums {
    // The sums of no cases.
    fn new() -> Self {
        Sums {
            tally: Tally::new(),
            laid: 0,
            late: 0,
        }
    }

    // One case more.
    fn with(self, outcome: Outcome) -> Self {
        let Sums { tally, laid, late } = self;
        Sums {
            tally: tally.with(outcome.right),
            laid: laid.wrapping_add(u64::from(outcome.number == 0)),
            late: late.wrapping_add(u64::from(outcome.late)),
        }
    }
}

// A case of a table, with a page list of this choice.
fn tabled(table: Table, case: u16, choice: u16) -> Outcome {
    let mut file = [0u8; 32];
    let mut distances = tables::DISTANCES;
    let mut parents = tables::PARENTS;
    let made = tables::make(table, case, &mut file);
    tables::put_labels(made.labels, &mut distances, &mut parents);
    let graph = Graph {
        file: &file,
        rows: &tables::ROWS,
        row_targets: &tables::ROW_TARGETS,
    };
    let labels = Labels {
        distances: &distances,
        parents: &parents,
    };
    call(graph, made.query, length(need(4), choice), labels)
}

// All cases of a group. `testkit`'s `all` counts what is right alone; here sums of its own are added up.
fn all<F: Fn(u16) -> Outcome>(cases: u16, outcome_of: F) -> Sums
    requires { F.IsAlwaysCallable outcome_of }
{
    let mut sums = Sums::new();
    for case in 0..cases {
        sums = sums.with(outcome_of(case));
    }
    sums
}

// The group's line, and one that says how many of its cases were laid out, and how many refused for
// the page list alone.
fn print(rt: &impl Print, name: &str, sums: Sums) -> io::Result<()> {
    let Sums { tally, laid, late } = sums;
    tally.print(rt, name)?;
    println!(rt; "{laid} of them laid out, {late} with the page list too short")
}

// The groups of `plans`.
fn print_drawn(rt: &impl Print) -> io::Result<()> {
    for (name, group, cases) in [
        ("sizes", Group::Sizes, plans::SIZE_CASES),
        ("results", Group::Results, plans::RESULT_CASES),
        ("lengths", Group::Lengths, plans::LENGTH_CASES),
        ("too large", Group::Large, plans::LARGE_CASES),
    ] {
        print(rt, name, all(cases, |case| drawn::outcome_of(group, case)))?;
    }
    Ok(())
}

// The tables, each case with a page list one byte short, at its need and longer.
fn print_tables(rt: &impl Print) -> io::Result<()> {
    for (name, table, cases) in [
        ("refusals", Table::Refusals, 3 * tables::REFUSAL_CASES),
        ("sources", Table::Sources, 3 * tables::SOURCE_CASES),
        ("sets of faults", Table::Faults, 3 * tables::FAULT_CASES),
    ] {
        print(
            rt,
            name,
            all(cases, |case| tabled(table, case / 3, case % 3)),
        )?;
    }
    Ok(())
}

pub fn run(rt: &impl Print) -> io::Result<()> {
    print_drawn(rt)?;
    print_tables(rt)
}
