// Results of drawn graphs and of paths.
use crate::inputs::{Parts, compose};
use crate::replies::{Wanted, answers, answers_in};
use checkkit::graphs::draw;
use checkkit::plans::{Plan, medium};
use checkkit::results::{KINDS, Kind, UNSET, make_judged};
use testkit::files::first;
use testkit::sample::file_length;

// So many graphs, each with a result of the next kind.
pub const CASES: u16 = 600;

// What is drawn for a case: the graph, how many edges of it are a path, the kind of result, how many
// distances are given, how many bytes stand behind the file; the number, where it is not the result's
// own; and whether the program's buffers are lent.
#[derive(Clone, Copy)]
pub struct Task {
    pub plan: Plan,
    pub path: u16,
    pub kind: Kind,
    pub count: u16,
    pub more: usize,
    pub number: Option<u16>,
    pub in_buffers: bool,
}

// Puts the input together, asks for its first bytes up to so many places behind its end, and compares.
fn is_answered(task: Task, number: u16, distances: &[u16], parents: &[u16], file: &[u8]) -> bool {
    let mut input = [0u8; 220000];
    let plan = task.plan;
    let parts = Parts {
        source: plan.source,
        count: task.count,
    };
    let whole = first(file, file_length(plan.vertices, plan.edges));
    let length = compose(&mut input, parts, distances, parents, whole);
    let given = length.wrapping_add(task.more);
    let wanted = Wanted {
        number,
        vertices: plan.vertices,
        distances,
        parents,
    };
    if task.in_buffers {
        return answers_in(&input, given, wanted);
    }
    answers(first(&input, given), wanted)
}

// Makes the result of a task for its graph, judges it, and asks.
fn is_judged(task: Task, file: &[u8], sources: &[u16], rows: &[u16], row_targets: &[u16]) -> bool {
    let mut distances = [UNSET; 4110];
    let mut parents = [UNSET; 4110];
    let result = make_judged(
        task.kind,
        task.plan,
        sources,
        rows,
        row_targets,
        &mut distances,
        &mut parents,
    );
    let number = task.number.unwrap_or((result % 65536) as u16);
    is_answered(task, number, &distances, &parents, file)
}

// Whether a task is answered as it must be.
pub fn is_done(task: Task) -> bool {
    let mut file = [0u8; 139280];
    let mut sources = [0u16; 32769];
    let mut row_targets = [0u16; 32769];
    let mut rows = [0u16; 4098];
    let mut order = [0u16; 32769];
    draw(
        task.path,
        task.plan,
        &mut file,
        &mut sources,
        &mut row_targets,
        &mut rows,
        &mut order,
    );
    is_judged(task, &file, &sources, &rows, &row_targets)
}

// A drawn graph; up to three places of rubbish stand behind the labels.
pub fn is_right(case: u16) -> bool {
    let plan = medium(case);
    is_done(Task {
        plan,
        path: 0,
        kind: KINDS[usize::from(case % 6)],
        count: plan.vertices.wrapping_add(case / 6 % 4),
        more: 0,
        number: None,
        in_buffers: false,
    })
}
