// The run of a schedule: the opening, then event after event up to the finishing one or to the end.
ghost use Rattle.std.specs.Prelude.{◌≡◌};
ghost use Rattle.graph.specs.Graph.{rows_of};
ghost use Rattle.model.specs.Play.{play};
ghost use Rattle.engine.specs.Runs.{answer_of, number_of, answer_in, Runnable, Ran};

use crate::{Answer, Ending};
use opening::open;
use schedule::{Event, EventTable};
use workers::{
    Phase, advance, all_free, begin, can_split, can_unite, first_of_eight, gather, stow, used_up,
};

// The run's answer.
fn conclude(ending: Ending, used: usize, effective: usize, layer: u16) -> Answer
    ensures { answer_in result ≡ answer_of (number_of ending) used effective layer }
{
    Answer {
        ending,
        used,
        effective,
        layer: usize::from(layer),
    }
}

// Plays the schedule. `pending` counts what is left to do in the layer: the numbers in the input bags
// and the workers that hold a vertex. `found` counts the numbers in the output bags. So a close
// knows by the two counts whether its condition is met and whether the united bag is empty. The lists are
// parameters, as the search's are and for its reason.
pub fn run(
    source: u16,
    workers: usize,
    schedule: &[u8],
    offsets: &[u16],
    targets: &[u16],
    distances: &mut [u16],
    parents: &mut [u16],
    histogram: &mut [u16],
    left: &mut [u16],
    right: &mut [u16],
    values: &mut [u16],
) -> Answer
    requires { Runnable source workers schedule.now offsets.now targets.now distances.old parents.old
        histogram.old left.old right.old values.old }
    ensures { Ran (play (rows_of offsets.now targets.now) source workers schedule.now)
        distances.new parents.new histogram.new (answer_in result) }
{
    let source_bag = open(
        source, workers, distances, parents, histogram, left, right, values,
    );
    let mut inputs = first_of_eight(source_bag);
    let mut outputs = first_of_eight(bag::empty());
    let mut phases = all_free();
    let mut pending = 1;
    let mut found = 0;
    let mut effective = 0;
    let mut layer: u16 = 0;
    let table = EventTable::new();
    // `used` counts the events before this one.
    for (used, byte) in schedule.iter().enumerate() {
        let event = table.look_up(*byte);
        match event {
            Event::Work { worker: w } => {
                let phase = phases[w];
                match phase {
                    Phase::Free => {
                        let input = inputs[w];
                        if bag::is_empty(input) {
                            continue;
                        }
                        let begun = begin(input, offsets, left, right, values);
                        inputs[w] = begun.input;
                        phases[w] = begun.phase;
                    }
                    Phase::Named {
                        vertex,
                        edge,
                        end,
                        target,
                    } => {
                        let stowed = stow(
                            outputs[w], vertex, edge, end, target, left, right, values,
                        );
                        outputs[w] = stowed.output;
                        phases[w] = stowed.phase;
                        found += 1;
                    }
                    _ => {
                        phases[w] = advance(phase, layer, targets, distances, parents, histogram);
                    }
                }
                pending -= used_up(phases[w]);
                effective += 1;
            }
            Event::Split { taker: w, giver: v } => {
                if can_split(inputs[w], inputs[v]) {
                    let halves = bag::split(inputs[v], left, right);
                    inputs[v] = halves.first;
                    inputs[w] = halves.second;
                    effective += 1;
                }
            }
            Event::Unite { giver: w, taker: v } => {
                if can_unite(outputs[w], outputs[v]) {
                    outputs[v] = bag::union(outputs[v], outputs[w], left, right);
                    outputs[w] = bag::empty();
                    effective += 1;
                }
            }
            Event::Close => {
                if pending == 0 {
                    // "d grows by 1", or the search is finished; the close is effective either way.
                    let next = layer + 1;
                    let counted = effective + 1;
                    if found == 0 {
                        return conclude(Ending::Finished, used + 1, counted, layer);
                    }
                    let united = gather(inputs[0], outputs, workers, left, right);
                    layer = next;
                    effective = counted;
                    pending = found;
                    found = 0;
                    inputs = first_of_eight(united);
                    outputs = first_of_eight(bag::empty());
                    phases = all_free();
                }
            }
            Event::Malformed => {}
        }
    }
    conclude(Ending::Spent, schedule.len(), effective, layer)
}
