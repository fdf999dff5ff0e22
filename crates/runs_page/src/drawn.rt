// Results of drawn graphs and of paths.
use crate::calls::{Outcome, call};
use crate::plans;
use crate::plans::Group;
use checkkit::graphs::draw;
use checkkit::plans::{Plan, number_of};
use checkkit::queries::{Labels, Query};
use checkkit::results::{UNSET, make_judged};
use searchkit::requests::Lengths;
use testkit::sample::{Graph, file_length};

// The query of a result, whose number is known but for the sizes and the lists.
fn query_of(plan: Plan, lengths: Lengths, res: usize) -> Query {
    Query {
        source: usize::from(plan.source),
        vertices: plan.vertices,
        edges: plan.edges,
        file: file_length(plan.vertices, plan.edges),
        lengths,
        number: number_of(plan, lengths, res),
    }
}

// A case of a group for its graph: makes the result, judges it, and calls.
fn called(group: Group, case: u16, plan: Plan, graph: Graph, sources: &[u16]) -> Outcome {
    let mut distances = [UNSET; 4110];
    let mut parents = [UNSET; 4110];
    let result = make_judged(
        plans::kind_of(group, case),
        plan,
        sources,
        graph.rows,
        graph.row_targets,
        &mut distances,
        &mut parents,
    );
    let query = query_of(plan, plans::lengths_of(group, case, plan), result);
    let room = plans::room_of(group, case, plan);
    let labels = Labels {
        distances: &distances,
        parents: &parents,
    };
    call(graph, query, room, labels)
}

// A case of a group: draws its graph, and calls.
pub fn outcome_of(group: Group, case: u16) -> Outcome {
    let mut file = [0u8; 139280];
    let mut sources = [0u16; 32769];
    let mut row_targets = [0u16; 32769];
    let mut rows = [0u16; 4098];
    let mut order = [0u16; 32769];
    let plan = plans::plan_of(group, case);
    let path = if plans::is_path(group, case) {
        plan.edges
    } else {
        0
    };
    draw(
        path,
        plan,
        &mut file,
        &mut sources,
        &mut row_targets,
        &mut rows,
        &mut order,
    );
    let graph = Graph {
        file: &file,
        rows: &rows,
        row_targets: &row_targets,
    };
    called(group, case, plan, graph, &sources)
}
