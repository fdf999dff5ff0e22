// The operations on bags. They may assume a well-formed pool with the bags they are given; other bags
// may stand in the same lists.
ghost use Rattle.std.specs.Prelude.{◌≡◌, false, [], ◌∷◌, ◌<◌, ◌≤◌, length, get_or, position, not, ◌==◌};
ghost use Rattle.pennant.specs.Bag.{is_empty};
ghost use Rattle.bag.specs.Nodes.{held_by};
ghost use Rattle.bag.specs.Promises.{Pooled, Inserted, United, SplitInto, TakenFrom};
ghost use Rattle.bag.specs.Steps.{Loose, Placed, Shifted, Spilled};

use crate::adder::add;
use crate::nodes::{allocate, halve, link, release};
use crate::{Bag, Halves, Taken};
use lists::at;

// BAG-INSERT of the node x. It is no `for`: of a loop over 16 slots the compiler makes 16 turns, and moves all
// slots at each insert.
fn place(bag: Bag, x: u16, left: &mut [u16], right: &mut [u16]) -> Bag
    requires { Loose left.old right.old bag.slots x }
    ensures { Placed left.old right.old bag.slots x left.new right.new result.slots }
{
    let mut slots = bag.slots;
    let mut root = x;
    let mut k = 0;
    while slots[k] != 0 {
        let first = slots[k];
        link(first, root, left, right);
        root = first;
        slots[k] = 0;
        k += 1;
    }
    slots[k] = root;
    Bag { slots }
}

// Inserts the number, in the first free node.
pub fn insert(bag: Bag, value: u16, left: &mut [u16], right: &mut [u16], values: &mut [u16]) -> Bag
    requires pooled { Pooled left.old right.old (bag ∷ []) }
    requires left_in_bounds { length left.old ≤ length values.old }
    requires some_free { get_or left.old 0 0 ≡ 0 → ⊥ }
    ensures { Inserted left.old right.old values.old bag value
        left.new right.new values.new result }
{
    let x = allocate(value, left, values);
    place(bag, x, left, right)
}

// BAG-UNION of a and b. A slot with nothing to add is passed: FA leaves it as it is and carries
// nothing.
pub fn union(a: Bag, b: Bag, left: &mut [u16], right: &mut [u16]) -> Bag
    requires { Pooled left.old right.old (a ∷ b ∷ []) }
    ensures { United left.old right.old a b left.new right.new result }
{
    let mut slots = a.slots;
    let others = b.slots;
    let mut carry: u16 = 0;
    for (k, other) in others.iter().enumerate() {
        if *other != 0 || carry != 0 {
            let sum = add(slots[k], *other, carry, left, right);
            slots[k] = sum.slot;
            carry = sum.carry;
        }
    }
    Bag { slots }
}

// BAG-SPLIT but for the pennant in slot 0, which is in neither half.
fn shift(bag: Bag, left: &mut [u16], right: &[u16]) -> Halves
    requires { Pooled left.old right.now (bag ∷ []) }
    ensures { Shifted left.old right.now bag.slots
        left.new result.first.slots result.second.slots }
{
    let slots = bag.slots;
    let mut first = [0u16; 16];
    let mut second = [0u16; 16];
    for (k, root) in slots[1..].iter().enumerate() {
        second[k] = halve(*root, left, right);
        first[k] = *root;
    }
    Halves {
        first: Bag { slots: first },
        second: Bag { slots: second },
    }
}

// BAG-SPLIT.
pub fn split(bag: Bag, left: &mut [u16], right: &mut [u16]) -> Halves
    requires { Pooled left.old right.old (bag ∷ []) }
    ensures { SplitInto left.old right.old bag
        left.new right.new result.first result.second }
{
    let slots = bag.slots;
    let odd = slots[0];
    let halves = shift(bag, left, right);
    if odd == 0 {
        return halves;
    }
    let rest = halves.first;
    let second = halves.second;
    Halves {
        first: place(rest, odd, left, right),
        second,
    }
}

// Take's splits: the pennant in slot `from` is split `from` times, always keeping the root; the halves
// fill the slots below, and the slot is left empty.
fn spill(bag: Bag, from: usize, left: &mut [u16], right: &[u16]) -> Bag
    requires pooled { Pooled left.old right.now (bag ∷ []) }
    requires from_bound { from < 16 }
    requires filled { get_or bag.slots from 0 ≡ 0 → ⊥ }
    ensures { Spilled left.old right.now bag.slots from left.new result.slots }
{
    let mut slots = bag.slots;
    let root = slots[from];
    slots[from] = 0;
    for k in (0..from).rev() {
        slots[k] = halve(root, left, right);
    }
    Bag { slots }
}

// The lowest filled slot, if there is one.
fn lowest(bag: Bag) -> Option<usize>
    ensures { result ≡ position (λ x. not (x == 0)) bag.slots }
{
    bag.slots.iter().position(|slot| *slot != 0)
}

// Takes the root of the pennant in the lowest filled slot and frees its node.
pub fn take(bag: Bag, left: &mut [u16], right: &[u16], values: &[u16]) -> Taken
    requires pooled { Pooled left.old right.now (bag ∷ []) }
    requires left_in_bounds { length left.old ≤ length values.now }
    requires bag_value { is_empty (held_by left.old right.now values.now bag) ≡ false }
    ensures { TakenFrom left.old right.now values.now bag
        left.new result.bag result.value }
{
    let slots = bag.slots;
    let k = lowest(bag).unwrap();
    let root = slots[k];
    let rest = spill(bag, k, left, right);
    release(root, left);
    Taken {
        bag: rest,
        value: at(values, root),
    }
}
