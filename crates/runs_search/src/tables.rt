// The cases of `searchkit`'s tables: document 01's cases, an input for every kind of refusal, and
// all sets of faults.
use crate::rooms::Small;
use searchkit::base::{FILE, SCHEDULE, code};
use searchkit::bench::is_answer;
use searchkit::requests::{Report, Request, is_played};
use searchkit::{bench, faults, refusals};
use testkit::files::put_words;
use testkit::sample::Graph;

// Whether the call answers the number and leaves the lists as it must; of the labels and the counts it
// gives the code.
pub fn called(graph: Graph, schedule: &[u8], request: Request, number: u16) -> Report {
    let mut room = Small::new();
    let done = room.call(graph, schedule, request);
    Report {
        seen: done.seen,
        digest: code(&room.distances, &room.parents, &room.histogram),
        right: done.right & (done.seen.number == usize::from(number)),
    }
}

// `called` with case A's rows.
fn called_square(file: &[u8], schedule: &[u8], request: Request, number: u16) -> Report {
    let graph = Graph {
        file,
        rows: &[0, 2, 3, 4, 4],
        row_targets: &[1, 2, 3, 3],
    };
    called(graph, schedule, request, number)
}

// A, or B with its events swapped: the distances are 0, 1, 1 and 2, the parents 0, 0, 0 and 1, with
// B 2, and the counts 1, 2, 1 and 0.
fn square(is_swapped: bool) -> Report {
    let mut file = [0u8; 28];
    let mut schedule = SCHEDULE;
    put_words(&mut file, &FILE);
    bench::make_square(&mut schedule, is_swapped);
    let report = called_square(&file, &schedule, bench::square(), 0);
    let labels = if is_swapped { 11200021210 } else { 11200011210 };
    let answered = is_answer(report.seen, 0, 25, 2);
    Report {
        digest: 0,
        right: report.right & answered & (report.digest == labels),
        ..report
    }
}

// C to I: a search of one vertex that is played gives it the distance 0 and the parent 0, and counts it.
fn point(row: u16) -> Report {
    let mut file = [0u8; 10];
    let mut schedule = [0u8; 2];
    bench::make_file(&mut file, row);
    bench::make_schedule(&mut schedule, row);
    let (number, events) = bench::answer(row);
    let graph = Graph {
        file: &file,
        rows: &[0, 0],
        row_targets: &[],
    };
    let report = called(graph, &schedule, bench::point(row), number);
    let seen = report.seen;
    let labels = (report.digest == 11102221333) == is_played(seen.number);
    Report {
        digest: 0,
        right: report.right & is_answer(seen, number, events, 0) & labels,
        ..report
    }
}

// Cases A to I.
pub fn bench_report(case: u16) -> Report {
    if case < 2 {
        square(case == 1)
    } else {
        point(case - 2)
    }
}

// Case A with faults.
pub fn faults_report(combination: u16) -> Report {
    let mut file = [0u8; 28];
    let mut schedule = SCHEDULE;
    faults::make_file(&mut file, combination);
    faults::make_chains(&mut file, combination);
    faults::make_schedule(&mut schedule, combination);
    let request = faults::request_of(combination);
    called_square(&file, &schedule, request, faults::expected(combination))
}

// Case A with another file.
fn file_report(row: u16) -> Report {
    let mut file = [0u8; 32];
    refusals::make_file(&mut file, row);
    let number = refusals::file_number(row);
    called_square(&file, &SCHEDULE, refusals::file_request(row), number)
}

// Case A with another source, other workers or another schedule.
fn call_report(row: u16) -> Report {
    let mut file = [0u8; 28];
    let mut schedule = SCHEDULE;
    put_words(&mut file, &FILE);
    refusals::make_schedule(&mut schedule, row);
    let number = refusals::call_number(row);
    called_square(&file, &schedule, refusals::call_request(row), number)
}

// Refusals of every kind.
pub fn refusals_report(row: u16) -> Report {
    if row < refusals::FILE_ROWS {
        file_report(row)
    } else {
        call_report(row - refusals::FILE_ROWS)
    }
}
