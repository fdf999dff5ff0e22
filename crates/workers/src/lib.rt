// The workers of a search: what one of them does at an event, when two may exchange, and what all do at
// a close. All workers' input bags, output bags and phases stand in three arrays; a move takes the bag
// and the phase that it is about, by value, and gives them back. These are inner steps: they may
// assume what their callers prove. An unset label is a word of C's lists, so it is tested as one.
#![tactic(auto)]

use bag::Bag;

mod crew;
mod moves;
mod pairs;

pub use crew::{all_free, first_of_eight, gather, used_up};
pub use moves::{advance, begin, stow};
pub use pairs::{can_split, can_unite};

// "A worker is free, holds a device with a link to look at, or is partway through a link": the
// vertex, its edge by its place in the targets, where the vertex's edges end, and the edge's target.
#[derive(Clone, Copy)]
pub enum Phase {
    Free,
    Holding {
        vertex: u16,
        edge: usize,
        end: usize,
    },
    InHand {
        vertex: u16,
        edge: usize,
        end: usize,
        target: u16,
    },
    Marked {
        vertex: u16,
        edge: usize,
        end: usize,
        target: u16,
    },
    Named {
        vertex: u16,
        edge: usize,
        end: usize,
        target: u16,
    },
}

// A worker that has taken from its input bag: what is left there, and its phase.
#[derive(Clone, Copy)]
pub struct Begun {
    pub input: Bag,
    pub phase: Phase,
}

// A worker that has stowed in its output bag: what is there now, and its phase.
#[derive(Clone, Copy)]
pub struct Stowed {
    pub output: Bag,
    pub phase: Phase,
}
