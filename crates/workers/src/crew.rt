// All workers: whether one still holds a vertex, the union of their output bags at a close, and their
// bags and phases as a layer opens.
ghost use Rattle.std.specs.Prelude.{◌≡◌, ◌∷◌, ◌+◌, ◌≤◌, take};
ghost use Rattle.numbers.specs.Numbers.{max_workers};
ghost use Rattle.bag.specs.Promises.{Pooled};
ghost use Rattle.workers.specs.Steps.{held_of, Gathered, first_of_eight, all_free};

use crate::Phase;
use bag::Bag;

// 1 for a worker that is free after a move: the vertex that it took or held is used up.
pub fn used_up(next: Phase) -> usize
    ensures { result + held_of next ≡ 1 }
{
    match next {
        Phase::Free => 1,
        _ => 0,
    }
}

// "output bags 0 to P - 1 are united in that order into worker 0's input bag".
pub fn gather(
    first: Bag,
    outputs: [Bag; 8],
    workers: usize,
    left: &mut [u16],
    right: &mut [u16],
) -> Bag
    requires workers_le_max_workers { workers ≤ max_workers }
    requires pooled { Pooled left.old right.old (first ∷ take workers outputs) }
    ensures { Gathered first (take workers outputs)
        left.old right.old left.new right.new result }
{
    let mut bag = first;
    for output in &outputs[..workers] {
        bag = bag::union(bag, *output, left, right);
    }
    bag
}

// Eight bags: this one first, the others empty.
pub fn first_of_eight(bag: Bag) -> [Bag; 8]
    ensures { result ≡ first_of_eight bag }
{
    let none = bag::empty();
    let mut bags = [none; 8];
    bags[0] = bag;
    bags
}

// Eight workers' phases, all of them free.
pub fn all_free() -> [Phase; 8]
    ensures { result ≡ all_free }
{
    [Phase::Free; 8]
}
