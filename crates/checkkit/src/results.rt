// Whole results: right ones, and ones that are wrong as a whole, each kind by one of the checker's
// rules.
use crate::plans::Plan;
pub use searchkit::labels::UNSET;
use searchkit::labels::View;
use searchkit::{labels, queue};
use testkit::random::{below, leap, next};
use testkit::sample::after;
use testkit::words::{at, put};

// Right results, and ones that are wrong as a whole.
#[derive(Clone, Copy, PartialEq, Eq)]
pub enum Kind {
    Right,
    // Real paths that need not be shortest.
    Longer,
    // A second source.
    Second,
    // Right for another source.
    Another,
    // No labels after a drawn layer.
    Cut,
    // Every distance one more.
    Shifted,
}

// All kinds; and those that are neither right nor longer paths.
pub const KINDS: [Kind; 6] = [
    Kind::Right,
    Kind::Longer,
    Kind::Second,
    Kind::Another,
    Kind::Cut,
    Kind::Shifted,
];

pub const OTHERS: [Kind; 4] = [Kind::Second, Kind::Another, Kind::Cut, Kind::Shifted];

// Makes the edge's source the parent of its target, where that is one farther: the first time
// always, later by the toss of a coin.
fn offer(source: u16, target: u16, distances: &[u16], parents: &mut [u16], seed: u64) {
    let nearer = at(distances, source);
    let old = at(parents, target);
    let is_parent = (nearer != UNSET) & (after(nearer) == at(distances, target));
    let is_chosen = (old == UNSET) | (below(seed, 2) == 0);
    put(
        parents,
        target,
        if is_parent & is_chosen { source } else { old },
    );
}

// Draws a parent for every vertex that is one farther than another with an edge to it.
fn draw_parents(
    plan: Plan,
    sources: &[u16],
    row_targets: &[u16],
    distances: &[u16],
    parents: &mut [u16],
) {
    let mut state = leap(plan.seed);
    for edge in 0..plan.edges {
        state = next(state);
        let source = at(sources, edge);
        offer(source, at(row_targets, edge), distances, parents, state);
    }
}

// The distances of a queue search from this source on. Vertices that have a distance keep it.
pub fn measure(source: u16, plan: Plan, rows: &[u16], row_targets: &[u16], distances: &mut [u16]) {
    let mut room = [0u16; 4102];
    queue::search(
        source,
        plan.vertices,
        plan.edges,
        rows,
        row_targets,
        distances,
        &mut room,
    );
}

// A result from this source on: the distances of a queue search, and drawn parents. Vertices that
// have a distance keep it.
fn fill(
    source: u16,
    plan: Plan,
    sources: &[u16],
    rows: &[u16],
    row_targets: &[u16],
    distances: &mut [u16],
    parents: &mut [u16],
) {
    measure(source, plan, rows, row_targets, distances);
    draw_parents(plan, sources, row_targets, distances, parents);
    put(parents, source, source);
}

// Labels the target by the edge, where the source has a distance and the target has none.
fn follow(source: u16, target: u16, distances: &mut [u16], parents: &mut [u16]) {
    let nearer = at(distances, source);
    if nearer != UNSET {
        if at(distances, target) == UNSET {
            put(distances, target, after(nearer));
            put(parents, target, source);
        }
    }
}

// Follows each edge once, in row order.
fn sweep(
    edges: u16,
    sources: &[u16],
    row_targets: &[u16],
    distances: &mut [u16],
    parents: &mut [u16],
) {
    for edge in 0..edges {
        let source = at(sources, edge);
        follow(source, at(row_targets, edge), distances, parents);
    }
}

// A tree of real paths to every vertex that the source reaches. A sweep for each vertex is enough.
fn grow(
    plan: Plan,
    sources: &[u16],
    row_targets: &[u16],
    distances: &mut [u16],
    parents: &mut [u16],
) {
    put(distances, plan.source, 0);
    put(parents, plan.source, plan.source);
    for _ in 0..plan.vertices {
        sweep(plan.edges, sources, row_targets, distances, parents);
    }
}

// Takes all labels beyond the layer away.
fn cut(layer: u16, vertices: u16, distances: &mut [u16], parents: &mut [u16]) {
    let labels = distances.iter_mut().zip(parents.iter_mut());
    for (distance, parent) in labels.take(usize::from(vertices)) {
        if layer < *distance {
            *distance = UNSET;
            *parent = UNSET;
        }
    }
}

// Makes every distance one more.
fn shift(vertices: u16, distances: &mut [u16]) {
    for distance in distances.iter_mut().take(usize::from(vertices)) {
        *distance = after(*distance);
    }
}

// Changes all labels as the kind says.
fn relabel(kind: Kind, plan: Plan, distances: &mut [u16], parents: &mut [u16]) {
    match kind {
        Kind::Cut => cut(below(leap(plan.seed), 4), plan.vertices, distances, parents),
        Kind::Shifted => shift(plan.vertices, distances),
        _ => {}
    }
}

// A result by queue searches from two sources, which are the same for all kinds but one: the second
// search then finds nothing new.
fn search_twice(
    kind: Kind,
    plan: Plan,
    sources: &[u16],
    rows: &[u16],
    row_targets: &[u16],
    distances: &mut [u16],
    parents: &mut [u16],
) {
    let other = below(leap(leap(plan.seed)), plan.vertices);
    let start = if kind == Kind::Another {
        other
    } else {
        plan.source
    };
    let second = if kind == Kind::Second { other } else { start };
    fill(start, plan, sources, rows, row_targets, distances, parents);
    fill(second, plan, sources, rows, row_targets, distances, parents);
    relabel(kind, plan, distances, parents);
}

// A result of a kind. All labels are unset before.
fn label(
    kind: Kind,
    plan: Plan,
    sources: &[u16],
    rows: &[u16],
    row_targets: &[u16],
    distances: &mut [u16],
    parents: &mut [u16],
) {
    if kind == Kind::Longer {
        grow(plan, sources, row_targets, distances, parents);
    } else {
        search_twice(kind, plan, sources, rows, row_targets, distances, parents);
    }
}

// Rubbish: 0, unset, a small number, or any.
fn rubbish(seed: u64) -> u16 {
    match below(seed, 4) {
        0 => 0,
        1 => UNSET,
        2 => below(next(seed), 40),
        _ => below(next(seed), UNSET),
    }
}

// Eight places of rubbish from this one on.
fn spoil(list: &mut [u16], from: u16, seed: u64) {
    let mut state = seed;
    for x in list.iter_mut().skip(usize::from(from)).take(8) {
        state = next(state);
        *x = rubbish(state);
    }
}

// A result of a kind, with rubbish behind the first n places of both lists. All labels are unset before.
pub fn make(
    kind: Kind,
    plan: Plan,
    sources: &[u16],
    rows: &[u16],
    row_targets: &[u16],
    distances: &mut [u16],
    parents: &mut [u16],
) {
    label(kind, plan, sources, rows, row_targets, distances, parents);
    spoil(distances, plan.vertices, plan.seed);
    spoil(parents, plan.vertices, leap(plan.seed));
}

// The number of a result: 0 where it is right, by the distances of a queue search, else 10.
pub fn number(
    plan: Plan,
    wanted: &[u16],
    distances: &[u16],
    parents: &[u16],
    rows: &[u16],
    row_targets: &[u16],
) -> usize {
    let view = View {
        vertices: plan.vertices,
        source: plan.source,
        layer: 65535,
        is_finished: true,
    };
    let judged = labels::judge(view, distances, parents, wanted, rows, row_targets);
    if judged.right { 0 } else { 10 }
}

// A result of a kind, as `make` makes it; the answer is its number.
pub fn make_judged(
    kind: Kind,
    plan: Plan,
    sources: &[u16],
    rows: &[u16],
    row_targets: &[u16],
    distances: &mut [u16],
    parents: &mut [u16],
) -> usize {
    let mut wanted = [UNSET; 4110];
    measure(plan.source, plan, rows, row_targets, &mut wanted);
    make(kind, plan, sources, rows, row_targets, distances, parents);
    number(plan, &wanted, distances, parents, rows, row_targets)
}
