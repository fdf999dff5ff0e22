// Drawn graphs under drawn schedules: what the output says is judged by a queue search.
use crate::inputs::{Parts, compose};
use crate::replies::ask;
use searchkit::plans::{Plan, judge};
use searchkit::requests::{Seen, is_played};
use searchkit::{events, random_plans};
use testkit::files::{first, lent};
use testkit::random::leap;
use testkit::sample::{draw_file, file_length};

// Each workers' number with each mixture and each kind of length, twice.
pub const ROUND_COUNT: u16 = 320;

// The words of the input.
fn parts_of(plan: Plan) -> Parts {
    Parts {
        source: plan.source,
        workers: plan.workers,
        events: (plan.length % 65536) as u16,
    }
}

// Asks, and judges a search that was played.
fn judged(input: &[u8], plan: Plan, rows: &[u16], row_targets: &[u16]) -> Option<Seen> {
    let mut distances = [0u16; 512];
    let mut parents = [0u16; 512];
    let seen = ask(input, plan.vertices, &mut distances, &mut parents)?;
    if is_played(seen.number) {
        let labels = judge(seen, plan, &distances, &parents, rows, row_targets);
        return labels.right.then_some(seen);
    }
    Some(seen)
}

// Draws a graph of at most 512 vertices and 2,048 edges, of which the rows are kept, and a schedule of
// at most 8,192 events, and puts the input together. The answer is its length.
fn draw(plan: Plan, rows: &mut [u16], row_targets: &mut [u16], input: &mut [u8]) -> usize {
    let mut file = [0u8; 9220];
    let mut sources = [0u16; 2048];
    let mut order = [0u16; 2048];
    let mut schedule = [0u8; 8192];
    draw_file(
        &mut file,
        &mut sources,
        row_targets,
        rows,
        &mut order,
        plan.vertices,
        plan.edges,
        plan.seed,
    );
    let seed = leap(leap(leap(plan.seed)));
    let drawn = lent(&mut schedule, plan.length as usize);
    events::draw(drawn, plan.mixture, plan.workers, seed);
    let whole = first(&file, file_length(plan.vertices, plan.edges));
    compose(input, parts_of(plan), &schedule, whole)
}

// Draws such an input. The answer is its length.
pub fn put(plan: Plan, input: &mut [u8]) -> usize {
    let mut rows = [0u16; 513];
    let mut row_targets = [0u16; 2048];
    draw(plan, &mut rows, &mut row_targets, input)
}

// Draws such an input, asks for its first bytes up to `more` places behind its end, and judges.
pub fn run(plan: Plan, more: u16) -> Option<Seen> {
    let mut rows = [0u16; 513];
    let mut row_targets = [0u16; 2048];
    let mut input = [0u8; 70000];
    let length = draw(plan, &mut rows, &mut row_targets, &mut input);
    let given = first(&input, length.wrapping_add(usize::from(more)));
    judged(given, plan, &rows, &row_targets)
}

// A round: every drawn input is accepted and played.
pub fn is_right(round: u16) -> bool {
    run(random_plans::plan_of(round), 0).is_some_and(|seen| is_played(seen.number))
}
