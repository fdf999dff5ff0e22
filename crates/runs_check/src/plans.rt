// What is drawn for a case of a group: the graph, the source, and how long the lists are.
use checkkit::plans::{AT_NEED, Plan, lent, sized, small};
use checkkit::results::{Kind, OTHERS};
use searchkit::requests::{Lengths, needs};
use testkit::sample::after;
use testkit::words::at;

// The groups of drawn graphs.
#[derive(Clone, Copy, PartialEq, Eq)]
pub enum Group {
    // Small graphs: right results; longer paths; the other kinds of results.
    Right,
    LongerPaths,
    Others,
    // Right results with lists of every length, and of graphs of every size.
    Lengths,
    Sizes,
    // Right results with one change: of the largest graph, and of a path of 4,096 vertices.
    Largest,
    // Right results of small graphs with every change of a vertex, by an edge, and of a vertex with
    // longer lists.
    Vertices,
    Edges,
    LongLists,
}

// How many cases some groups have.
pub const SIZE_CASES: u16 = 14;

pub const LARGE_CASES: u16 = 120;

// The combinations with one of the lists short: a power of 3 less than with all at their need.
const SHORT: [u16; 5] = [120, 118, 112, 94, 40];

// The kind of a case's result.
pub fn kind_of(group: Group, case: u16) -> Kind {
    match group {
        Group::LongerPaths => Kind::Longer,
        Group::Others => OTHERS[usize::from(case % 4)],
        _ => Kind::Right,
    }
}

// Whether the graph of a case is a path: half of the largest graphs' cases.
pub fn is_path(group: Group, case: u16) -> bool {
    group == Group::Largest && case >= 60
}

// The least size, the most, or one more, by a digit of a case's number: an enum of it would be made here
// alone.
fn side(choice: u16, least: u16, most: u16) -> u16 {
    match choice {
        0 => least,
        1 => most,
        _ => after(most),
    }
}

// The graph and the source of a case.
pub fn plan_of(group: Group, case: u16) -> Plan {
    match group {
        Group::Lengths => sized(37, 101),
        Group::Sizes if case < 9 => sized(side(case % 3, 1, 4096), side(case / 3, 0, 32768)),
        Group::Largest if is_path(group, case) => sized(4096, 4095),
        Group::Sizes | Group::Largest => sized(4096, 32768),
        _ => small(case),
    }
}

// The first nine sizes are with lists at their need, the others with one list short.
fn size_combination(case: u16) -> u16 {
    if case < 9 {
        return AT_NEED;
    }
    at(&SHORT, case - 9)
}

// How long the lists are: by the group, else at their need or up to three places longer.
pub fn lengths_of(group: Group, case: u16, plan: Plan) -> Lengths {
    match group {
        Group::Lengths => lent(plan, case),
        Group::Sizes => lent(plan, size_combination(case)),
        Group::LongLists => needs(plan.vertices, plan.edges, 1, 8),
        _ => needs(plan.vertices, plan.edges, 1, case % 4),
    }
}
