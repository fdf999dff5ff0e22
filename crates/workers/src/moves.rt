// One worker's moves: take from the input bag, look at an edge, mark, name, stow.
ghost use Rattle.std.specs.Prelude.{◌≡◌, false, List, [], ◌∷◌, ℕ, ◌+◌, ◌≤◌, ◌<◌, length, get_or, set};
ghost use Rattle.pennant.specs.Held.{copies};
ghost use Rattle.pennant.specs.Bag.{is_empty};
ghost use Rattle.bag.specs.Nodes.{held_by};
ghost use Rattle.bag.specs.Promises.{Pooled, Inserted};
ghost use Rattle.graph.specs.Steps.{GraphRows};
ghost use Rattle.workers.specs.Steps.{InRows, hold_from, look_at, Between, Advanced, BegunFrom};
ghost use Rattle.workers.specs.Steps.{Countable, count_marked, counts_after};

use crate::{Begun, Phase, Stowed};
use bag::Bag;
use lists::{at, put};

// The phase at this edge of the vertex: "A device whose links are used up frees its worker."
fn hold(vertex: u16, edge: usize, end: usize) -> Phase
    ensures { (offsets : List ℕ) → end ≡ get_or offsets (vertex + 1) 0 → result ≡ hold_from offsets vertex edge }
{
    if edge < end {
        Phase::Holding { vertex, edge, end }
    } else {
        Phase::Free
    }
}

// "it looks at the next target t; if t's distance is unset it has t in hand, else it passes on".
fn look(vertex: u16, edge: usize, end: usize, targets: &[u16], distances: &[u16]) -> Phase
    requires edge_in_bounds { edge < length targets.now }
    requires edge_bound { edge + 1 < 65536 }
    requires edge_in_bounds_2 { get_or targets.now edge 0 < length distances.now }
    ensures { (offsets : List ℕ) → end ≡ get_or offsets (vertex + 1) 0
        → result ≡ look_at offsets targets.now distances.now vertex edge }
{
    let target = targets[edge];
    if at(distances, target) == numbers::UNSET {
        return Phase::InHand {
            vertex,
            edge,
            end,
            target,
        };
    }
    hold(vertex, edge + 1, end)
}

// "mark (distance d + 1)": a vertex that is unset is counted there.
fn mark(target: u16, layer: u16, distances: &mut [u16], histogram: &mut [u16])
    requires target_in_bounds { target < length distances.old }
    requires layer_in_bounds { layer + 1 < length histogram.old }
    requires layer_bound { layer + 1 < 65536 }
    requires layer_bound_2 { get_or histogram.old (layer + 1) 0 + 1 < 65536 }
    ensures distances_after { distances.new ≡ set distances.old target (layer + 1) }
    ensures histogram_after { histogram.new ≡ count_marked target (layer + 1) distances.old histogram.old }
{
    let distance = layer + 1;
    let old = at(distances, target);
    if old == numbers::UNSET {
        put(histogram, distance, at(histogram, distance) + 1);
    }
    put(distances, target, distance);
}

// A move that needs no bag: look, mark or name.
pub fn advance(
    phase: Phase,
    layer: u16,
    targets: &[u16],
    distances: &mut [u16],
    parents: &mut [u16],
    histogram: &mut [u16],
) -> Phase
    requires parents_len { length parents.old ≡ length distances.old }
    requires layer_bound { layer + 1 < 65536 }
    requires between { Between targets.now (length distances.old) phase }
    requires countable { Countable layer histogram.old phase }
    ensures by_index { (offsets : List ℕ) → GraphRows offsets targets.now (length distances.old)
        → layer < length distances.old → InRows offsets (length distances.old) phase
        → Advanced phase layer offsets targets.now distances.old parents.old
        distances.new parents.new result }
    ensures histogram_after { histogram.new ≡ counts_after phase layer distances.old histogram.old }
{
    match phase {
        Phase::Free | Phase::Named { .. } => phase,
        Phase::Holding { vertex, edge, end } => look(vertex, edge, end, targets, distances),
        Phase::InHand {
            vertex,
            edge,
            end,
            target,
        } => {
            mark(target, layer, distances, histogram);
            Phase::Marked {
                vertex,
                edge,
                end,
                target,
            }
        }
        Phase::Marked {
            vertex,
            edge,
            end,
            target,
        } => {
            put(parents, target, vertex);
            Phase::Named {
                vertex,
                edge,
                end,
                target,
            }
        }
    }
}

// "Free: it takes from its input bag, if that isn't empty". The caller has tested that.
pub fn begin(input: Bag, offsets: &[u16], left: &mut [u16], right: &[u16], values: &[u16]) -> Begun
    requires pooled { Pooled left.old right.now (input ∷ []) }
    requires left_in_bounds { length left.old ≤ length values.now }
    requires input_value { is_empty (held_by left.old right.now values.now input) ≡ false }
    requires by_index { (v : ℕ) → 1 ≤ copies v (held_by left.old right.now values.now input)
        → v + 1 < length offsets.now }
    ensures { BegunFrom input offsets.now left.old right.now values.now
        left.new result.input result.phase }
{
    let taken = bag::take(input, left, right, values);
    let rest = taken.bag;
    let vertex = taken.value;
    Begun {
        input: rest,
        phase: hold(
            vertex,
            usize::from(at(offsets, vertex)),
            usize::from(offsets[usize::from(vertex) + 1]),
        ),
    }
}

// "stow (insert t into its output bag, pass on)".
pub fn stow(
    output: Bag,
    vertex: u16,
    edge: usize,
    end: usize,
    target: u16,
    left: &mut [u16],
    right: &mut [u16],
    values: &mut [u16],
) -> Stowed
    requires edge_bound { edge + 1 < 65536 }
    requires pooled { Pooled left.old right.old (output ∷ []) }
    requires left_in_bounds { length left.old ≤ length values.old }
    requires some_free { get_or left.old 0 0 ≡ 0 → ⊥ }
    ensures inserted { Inserted left.old right.old values.old output target
        left.new right.new values.new result.output }
    ensures by_index { (offsets : List ℕ) → end ≡ get_or offsets (vertex + 1) 0
        → result.phase ≡ hold_from offsets vertex (edge + 1) }
{
    Stowed {
        output: bag::insert(output, target, left, right, values),
        phase: hold(vertex, edge + 1, end),
    }
}
