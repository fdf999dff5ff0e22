// Searches of drawn graphs under drawn schedules, judged by a queue search of the same graph.
use crate::rooms::{Large, Room, Small};
use searchkit::plans::{Plan, judge, request_of};
use searchkit::requests::{Lengths, Report, is_played};
use searchkit::{events, random_plans, short_lists, sizes};
use testkit::contents;
use testkit::random::leap;
use testkit::sample::{Graph, draw_file};

// Searches with these lists and judges. A call that was refused is judged by its number alone, by the
// caller.
fn searched_in<const N: usize, const M: usize, const K: usize>(
    room: &mut Room<N, M, K>,
    graph: Graph,
    schedule: &[u8],
    plan: Plan,
    lengths: Lengths,
) -> Report {
    let done = room.call(graph, schedule, request_of(plan, lengths));
    let seen = done.seen;
    if !is_played(seen.number) {
        return Report {
            seen,
            digest: 0,
            right: done.right,
        };
    }
    let judged = judge(
        seen,
        plan,
        &room.distances,
        &room.parents,
        graph.rows,
        graph.row_targets,
    );
    Report {
        seen,
        digest: judged.digest,
        right: done.right & judged.right,
    }
}

// Searches and judges in the large lists. A function pays at entry for all its lists, so these stand in one
// of their own.
fn searched_large(graph: Graph, schedule: &[u8], plan: Plan, lengths: Lengths) -> Report {
    searched_in(&mut Large::new(), graph, schedule, plan, lengths)
}

// Searches and judges, with small lists where they are enough.
pub fn searched(graph: Graph, schedule: &[u8], plan: Plan, lengths: Lengths) -> Report {
    if plan.vertices <= 40 && plan.edges <= 110 {
        searched_in(&mut Small::new(), graph, schedule, plan, lengths)
    } else {
        searched_large(graph, schedule, plan, lengths)
    }
}

// A case that must be played: no number but 0 and 21 is right.
pub fn played(report: Report) -> Report {
    Report {
        right: report.right & is_played(report.seen.number),
        ..report
    }
}

// Draws a graph and a schedule, searches with lists of these lengths, and judges.
fn run(plan: Plan, lengths: Lengths) -> Report {
    let mut file = [0u8; 139280];
    let mut sources = [0u16; 32769];
    let mut row_targets = [0u16; 32769];
    let mut rows = [0u16; 4098];
    let mut order = [0u16; 32769];
    draw_file(
        &mut file,
        &mut sources,
        &mut row_targets,
        &mut rows,
        &mut order,
        plan.vertices,
        plan.edges,
        plan.seed,
    );
    let mut schedule = [0u8; 450000];
    let seed = leap(leap(leap(plan.seed)));
    let drawn = contents::lent(&mut schedule, plan.length as usize);
    events::draw(drawn, plan.mixture, plan.workers, seed);
    let graph = Graph {
        file: &file,
        rows: &rows,
        row_targets: &row_targets,
    };
    searched(graph, &schedule, plan, lengths)
}

// `run`, and the number it must answer.
fn numbered(plan: Plan, lengths: Lengths, number: usize) -> Report {
    let report = run(plan, lengths);
    Report {
        right: report.right & (report.seen.number == number),
        ..report
    }
}

// Lists of every length.
pub fn lengths_report(combination: u16) -> Report {
    let lent = short_lists::lent(combination);
    numbered(
        short_lists::one_plan(),
        lent,
        short_lists::expected(combination),
    )
}

// Graphs of every size.
pub fn sizes_report(row: u16) -> Report {
    let plan = sizes::plan_of(row);
    numbered(plan, sizes::lent(plan), sizes::number(row))
}

// Random graphs and schedules.
pub fn random_report(round: u16) -> Report {
    let plan = random_plans::plan_of(round);
    played(run(plan, random_plans::lent(plan, round)))
}
