// The opening of a search: the labels of the source alone, their counts, a new pool of nodes, and the
// source in a bag. `open` is an inner step: it requires lists that are as long as their needs.
#![tactic(auto)]

ghost use Rattle.std.specs.Prelude.{◌≡◌, ◌<◌, length, set, replicate};
ghost use Rattle.numbers.specs.Numbers.{unset};
ghost use Rattle.opening.specs.Opening.{Sized, FirstLayer};

use bag::Bag;
use lists::put;

// "The source starts with distance 0, itself as parent, alone in worker 0's input bag .. All else is
// unset". Gives the bag.
pub fn open(
    source: u16,
    workers: usize,
    distances: &mut [u16],
    parents: &mut [u16],
    histogram: &mut [u16],
    left: &mut [u16],
    right: &mut [u16],
    values: &mut [u16],
) -> Bag
    requires source_in_bounds { source < length distances.old }
    requires sized { Sized workers distances.old parents.old histogram.old left.old right.old values.old }
    ensures { FirstLayer workers source distances.old distances.new parents.new
        histogram.new left.new right.new values.new result }
{
    label(source, distances, parents);
    count(histogram);
    bag::pool(left, workers * distances.len());
    bag::insert(bag::empty(), source, left, right, values)
}

// The labels of the opening.
fn label(source: u16, distances: &mut [u16], parents: &mut [u16])
    requires source_in_bounds { source < length distances.old }
    requires parents_len { length parents.old ≡ length distances.old }
    ensures distances_after { distances.new ≡ set (replicate (length distances.old) unset) source 0 }
    ensures parents_after { parents.new ≡ set (replicate (length distances.old) unset) source source }
{
    distances.fill(numbers::UNSET);
    parents.fill(numbers::UNSET);
    put(distances, source, 0);
    put(parents, source, source);
}

// The counts of the opening: 1 at distance 0, the source; "is written when the run begins".
fn count(histogram: &mut [u16])
    requires { 0 < length histogram.old }
    ensures { histogram.new ≡ set (replicate (length histogram.old) 0) 0 1 }
{
    histogram.fill(0);
    histogram[0] = 1;
}
