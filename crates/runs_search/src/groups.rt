// The groups that are tables or draws: one loop goes through the cases of a group.
use crate::{drawn, histogram, tables};
use searchkit::requests::Report;
use searchkit::{
    beginnings, bench, fans, faults, paths, random_plans, refusals, short_lists, sizes,
};
use std::io;
use testkit::group::Tally;

// A group's tally, how many of its searches were finished, the sums of what was answered, and a
// number made of all labels.
#[derive(Clone, Copy)]
struct Sums {
    tally: Tally,
    finished: u64,
    used: u64,
    effective: u64,
    layers: u64,
    digest: u64,
}

impl Sums {
    // The sums of no cases.
    fn new() -> Self {
        Sums {
            tally: Tally::new(),
            finished: 0,
            used: 0,
            effective: 0,
            layers: 0,
            digest: 0,
        }
    }

    // One case more.
    fn with(self, report: Report) -> Self {
        let seen = report.seen;
        let is_finished = seen.number == 0 && report.right;
        Sums {
            tally: self.tally.with(report.right),
            finished: self.finished.wrapping_add(u64::from(is_finished)),
            used: self.used.wrapping_add(seen.used as u64),
            effective: self.effective.wrapping_add(seen.effective as u64),
            layers: self.layers.wrapping_add(seen.layer as u64),
            digest: self.digest % 2147483647 * 31 + report.digest % 2147483647,
        }
    }

    // The group's line.
    fn print_tally(self, rt: &impl Print, name: &str) -> io::Result<()> {
        self.tally.print(rt, name)
    }

    // The group's line, and one for its sums.
    fn print(self, rt: &impl Print, name: &str) -> io::Result<()> {
        self.print_tally(rt, name)?;
        let Sums {
            finished,
            used,
            effective,
            layers,
            ..
        } = self;
        print!(rt; "{finished} finished, {used} events used, {effective} effective, ")?;
        let labels = self.digest % 2147483647;
        println!(rt; "{layers} layers, labels {labels}")
    }
}

// All cases of a group. `testkit`'s `all` counts what is right alone; here sums of its own are added up.
fn all<F: Fn(u16) -> Report>(cases: u16, report_of: F) -> Sums
    requires { F.IsAlwaysCallable report_of }
{
    let mut sums = Sums::new();
    for case in 0..cases {
        sums = sums.with(report_of(case));
    }
    sums
}

pub fn run(rt: &impl Print) -> io::Result<()> {
    all(bench::CASES, tables::bench_report).print_tally(rt, "cases A to I")?;
    all(refusals::ROWS, tables::refusals_report).print_tally(rt, "refusals")?;
    all(faults::COMBINATIONS, tables::faults_report).print_tally(rt, "sets of faults")?;
    let lengths = all(short_lists::COMBINATIONS, drawn::lengths_report);
    lengths.print_tally(rt, "lengths of the lists")?;
    all(random_plans::ROUNDS, drawn::random_report).print(rt, "random schedules")?;
    all(sizes::ROWS, drawn::sizes_report).print(rt, "sizes")?;
    all(fans::CASES, histogram::fan_report).print_tally(rt, "census of fans")?;
    all(beginnings::CASES, histogram::cut_report).print(rt, "census after each byte")?;
    all(paths::CASES, histogram::path_report).print_tally(rt, "census of a path")
}
