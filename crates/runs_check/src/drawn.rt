// Results of drawn graphs: whole ones, and right ones with one vertex's labels changed. Behind the
// first n places of both lists stands rubbish.
use crate::calls::answers;
use crate::changes::{Change, Drawn, cases_of};
use crate::group_sums::{Outcome, Sums};
use crate::plans;
use crate::plans::Group;
use checkkit::graphs::draw;
use checkkit::plans::number_of;
use checkkit::queries::{Labels, Query};
use checkkit::results;
use checkkit::results::UNSET;
use searchkit::requests::Lengths;
use testkit::sample::{Graph, file_length};
use testkit::words::{at, put};

// Judges the result, and checks it.
fn checked(graph: Drawn, lengths: Lengths, labels: Labels) -> Outcome {
    let Drawn {
        plan,
        file,
        rows,
        row_targets,
        wanted,
        ..
    } = graph;
    let result = results::number(
        plan,
        wanted,
        labels.distances,
        labels.parents,
        rows,
        row_targets,
    );
    let number = number_of(plan, lengths, result);
    let query = Query {
        source: usize::from(plan.source),
        vertices: plan.vertices,
        edges: plan.edges,
        file: file_length(plan.vertices, plan.edges),
        lengths,
        number,
    };
    let graph = Graph {
        file,
        rows,
        row_targets,
    };
    Outcome {
        number,
        right: answers(graph, query, labels),
    }
}

// Gives a vertex new labels, and answers its old ones.
fn exchange(change: Change, distances: &mut [u16], parents: &mut [u16]) -> Change {
    let vertex = change.vertex;
    let old = Change {
        vertex,
        distance: at(distances, vertex),
        parent: at(parents, vertex),
    };
    put(distances, vertex, change.distance);
    put(parents, vertex, change.parent);
    old
}

// `checked` with a change, which is taken back.
fn tried(
    change: Change,
    graph: Drawn,
    lengths: Lengths,
    distances: &mut [u16],
    parents: &mut [u16],
) -> Outcome {
    let old = exchange(change, distances, parents);
    let outcome = checked(graph, lengths, Labels { distances, parents });
    exchange(old, distances, parents);
    outcome
}

// The cases of a group for one graph.
fn cases(group: Group, case: u16, graph: Drawn) -> Sums {
    let plan = graph.plan;
    let mut distances = [UNSET; 4102];
    let mut parents = [UNSET; 4102];
    results::make(
        plans::kind_of(group, case),
        plan,
        graph.sources,
        graph.rows,
        graph.row_targets,
        &mut distances,
        &mut parents,
    );
    let lengths = plans::lengths_of(group, case, plan);
    let mut sums = Sums::new();
    for case in cases_of(group, case, plan) {
        let outcome = match graph.change_of(group, case, &parents) {
            Some(change) => tried(change, graph, lengths, &mut distances, &mut parents),
            None => {
                let labels = Labels {
                    distances: &distances,
                    parents: &parents,
                };
                checked(graph, lengths, labels)
            }
        };
        sums = sums.with(outcome);
    }
    sums
}

// A case of a group: draws its graph, and checks one call, or every change.
pub fn sums_of(group: Group, case: u16) -> Sums {
    let mut file = [0u8; 139280];
    let mut sources = [0u16; 32769];
    let mut row_targets = [0u16; 32769];
    let mut rows = [0u16; 4098];
    let mut order = [0u16; 32769];
    let plan = plans::plan_of(group, case);
    let edges = if plans::is_path(group, case) {
        plan.edges
    } else {
        0
    };
    draw(
        edges,
        plan,
        &mut file,
        &mut sources,
        &mut row_targets,
        &mut rows,
        &mut order,
    );
    let mut wanted = [UNSET; 4102];
    results::measure(plan.source, plan, &rows, &row_targets, &mut wanted);
    let graph = Drawn {
        plan,
        file: &file,
        sources: &sources,
        rows: &rows,
        row_targets: &row_targets,
        wanted: &wanted,
    };
    cases(group, case, graph)
}
