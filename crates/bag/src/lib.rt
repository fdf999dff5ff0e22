// Bags of pennants (000, section 4) on three node lists that the caller lends: left and right child,
// and the number that a node holds. Nodes are numbered from 1; 0 is none, in C's lists too, so it is no
// `Option`. The free nodes are chained through left, from place 0 on, which is no node's. No operation
// walks a tree: each touches at most the 16 slots of the bags it is given and, for a filled slot, one
// or two nodes. The three lists stay parameters of their own: a struct lent mutably would have to say
// again that right and values stay.
#![tactic(auto)]

ghost use Rattle.std.specs.Prelude.{◌≡◌, ℕ, List, [], ◌∷◌};
ghost use Rattle.pennant.specs.Bag.{is_empty, at_least_two};
ghost use Rattle.bag.specs.Nodes.{held_by, new_bag};
ghost use Rattle.bag.specs.Promises.{Pooled};

mod adder;
mod nodes;
mod operations;
mod store;

pub use operations::{insert, split, take, union};
pub use store::{pool, sweep};

// "a backbone of 16 slots": slot k is 0 or the root of a pennant of 2^k nodes.
#[derive(Clone, Copy)]
pub struct Bag {
    pub slots: [u16; 16],
}

// The two bags of a split.
#[derive(Clone, Copy)]
pub struct Halves {
    pub first: Bag,
    pub second: Bag,
}

// What take leaves, and the number that it took.
#[derive(Clone, Copy)]
pub struct Taken {
    pub bag: Bag,
    pub value: u16,
}

// BAG-CREATE.
pub fn empty() -> Bag
    ensures { result ≡ new_bag }
{
    Bag { slots: [0u16; 16] }
}

// Whether the bag is empty. All slots are compared at once.
pub fn is_empty(bag: Bag) -> bool
    ensures { (left right values : List ℕ) → Pooled left right (bag ∷ [])
        → result ≡ is_empty (held_by left right values bag) }
{
    bag.slots == [0u16; 16]
}

// Whether the bag holds at least two numbers: a slot past slot 0 is filled. All slots are compared at
// once, slot 0 as an empty one.
pub fn at_least_two(bag: Bag) -> bool
    ensures { (left right values : List ℕ) → Pooled left right (bag ∷ [])
        → result ≡ at_least_two (held_by left right values bag) }
{
    let mut slots = bag.slots;
    slots[0] = 0;
    slots != [0u16; 16]
}
