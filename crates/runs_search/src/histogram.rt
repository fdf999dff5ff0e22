// Searches that are cut, whose counts must be those of the distances so far: fans and a graph under
// drawn schedules, cut at every byte; the longest path, cut at nine places. The counts of fans and of the
// path are also known from the input alone.
use crate::drawn::{played, searched};
use crate::rooms::Large;
use crate::tables::called;
use searchkit::requests::Report;
use searchkit::{beginnings, events, fans, paths};
use testkit::sample::Graph;
use testkit::words::holds;

// A beginning of a fan's schedule.
pub fn fan_report(case: u16) -> Report {
    let mut file = [0u8; 88];
    let mut sources = [0u16; 16];
    let mut row_targets = [0u16; 16];
    let mut rows = [0u16; 11];
    let mut order = [0u16; 16];
    let mut schedule = [0u8; 100];
    fans::make_graph(
        case,
        &mut file,
        &mut sources,
        &mut row_targets,
        &mut rows,
        &mut order,
    );
    fans::make_schedule(case, &mut schedule);
    let graph = Graph {
        file: &file,
        rows: &rows,
        row_targets: &row_targets,
    };
    let request = fans::request_of(case);
    let report = called(graph, &schedule, request, fans::number(case));
    Report {
        digest: 0,
        right: fans::is_right(case, report),
        ..report
    }
}

// A beginning of a drawn schedule.
pub fn cut_report(case: u16) -> Report {
    let plan = beginnings::plan_of(case);
    let mut file = [0u8; 150];
    let mut sources = [0u16; 30];
    let mut row_targets = [0u16; 30];
    let mut rows = [0u16; 14];
    let mut order = [0u16; 30];
    let mut schedule = [0u8; 400];
    beginnings::make_graph(
        &mut file,
        &mut sources,
        &mut row_targets,
        &mut rows,
        &mut order,
    );
    events::draw(&mut schedule, plan.mixture, plan.workers, plan.seed);
    let graph = Graph {
        file: &file,
        rows: &rows,
        row_targets: &row_targets,
    };
    let lengths = beginnings::lent(plan, case);
    played(searched(graph, &schedule, plan, lengths))
}

// The longest path in large lists: every vertex that is reached stands alone at its distance.
fn path_in(case: u16, graph: Graph, schedule: &[u8]) -> Report {
    let mut room = Large::new();
    let done = room.call(graph, schedule, paths::request_of(case));
    let seen = done.seen;
    let ones = holds(&room.histogram, paths::reached(case), 1);
    Report {
        seen,
        digest: 0,
        right: done.right & paths::is_answer(case, seen) & ones,
    }
}

// The longest path, under a beginning of full rounds of one worker.
pub fn path_report(case: u16) -> Report {
    let mut file = [0u8; 24576];
    let mut sources = [0u16; 4095];
    let mut row_targets = [0u16; 4095];
    let mut rows = [0u16; 4097];
    let mut order = [0u16; 4095];
    let mut schedule = [0u8; 40952];
    paths::make(
        &mut file,
        &mut sources,
        &mut row_targets,
        &mut rows,
        &mut order,
    );
    events::draw(&mut schedule, 0, 1, 1);
    let graph = Graph {
        file: &file,
        rows: &rows,
        row_targets: &row_targets,
    };
    path_in(case, graph, &schedule)
}
