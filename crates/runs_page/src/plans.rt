// What is drawn for a case of a group: the graph, the kind of result, how long the lists are, and how
// long the page list is.
use checkkit::plans::{Plan, length, lent, medium, sized};
use checkkit::results::{KINDS, Kind};
use pagekit::need;
use searchkit::requests::{Lengths, needs};
use testkit::words::at;

// Right results of graphs of every size; results of every kind; lists of every length; sizes that are
// refused.
#[derive(Clone, Copy, PartialEq)]
pub enum Group {
    Sizes,
    Results,
    Lengths,
    Large,
}

// How many cases they have: each size as a path, drawn and without edges, with each of four page
// lists; each result with each of three page lists; each combination with each of three; three sizes
// with each of three.
pub const SIZE_CASES: u16 = 192;

pub const RESULT_CASES: u16 = 1800;

pub const LENGTH_CASES: u16 = 729;

pub const LARGE_CASES: u16 = 9;

// Numbers of vertices around the ends of pages and around those of the columns' figures.
const VERTICES: [u16; 16] = [
    1, 2, 49, 50, 51, 99, 100, 101, 149, 150, 999, 1000, 1001, 2499, 4095, 4096,
];

// Whether the graph of a case is a path.
pub fn is_path(group: Group, case: u16) -> bool {
    (group == Group::Sizes) & (case / 4 % 3 == 0)
}

// A path, a drawn graph with eight times as many edges as vertices, or no edges, by a digit of a case's
// number: an enum of it would be made here alone.
fn edges(vertices: u16, choice: u16) -> u16 {
    match choice {
        0 => vertices.wrapping_sub(1),
        1 => vertices % 8192 * 8,
        _ => 0,
    }
}

// A number of vertices or of edges that is one too large, or both, by a digit of a case's number too.
fn large(choice: u16) -> Plan {
    match choice {
        0 => sized(4097, 0),
        1 => sized(1, 32769),
        _ => sized(4097, 32769),
    }
}

// The graph and the source of a case.
pub fn plan_of(group: Group, case: u16) -> Plan {
    match group {
        Group::Sizes => {
            let vertices = at(&VERTICES, case / 12);
            sized(vertices, edges(vertices, case / 4 % 3))
        }
        Group::Results => medium(case / 3),
        Group::Lengths => sized(107, 301),
        Group::Large => large(case / 3),
    }
}

// The kind of a case's result.
pub fn kind_of(group: Group, case: u16) -> Kind {
    match group {
        Group::Results => KINDS[usize::from(case / 3 % 6)],
        _ => Kind::Right,
    }
}

// How long the lists are: by the group, else at their need or up to three places longer.
pub fn lengths_of(group: Group, case: u16, plan: Plan) -> Lengths {
    match group {
        Group::Lengths => lent(plan, case / 3),
        _ => needs(plan.vertices, plan.edges, 1, case % 4),
    }
}

// How long the page list is: one byte short, at its need, five bytes longer, or empty.
pub fn room_of(group: Group, case: u16, plan: Plan) -> usize {
    let choice = if group == Group::Sizes {
        case % 4
    } else {
        case % 3
    };
    if choice == 3 {
        return 0;
    }
    length(need(plan.vertices), choice)
}
