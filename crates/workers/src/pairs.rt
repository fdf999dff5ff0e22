// When two workers, w and v of an event byte, exchange something: the conditions of kinds 1 and 2.
ghost use Rattle.std.specs.Prelude.{◌≡◌, not, ◌&&◌, List, [], ◌∷◌, ℕ};
ghost use Rattle.pennant.specs.Bag.{is_empty, at_least_two};
ghost use Rattle.bag.specs.Nodes.{held_by};
ghost use Rattle.bag.specs.Promises.{Pooled};

use bag::Bag;

// Kind 1: "w, its input bag empty, gets the second bag of a split of v's input bag, if that has at
// least 2 elements": the taker is w, the giver v.
pub fn can_split(taker: Bag, giver: Bag) -> bool
    ensures { (left right values : List ℕ) → Pooled left right (giver ∷ taker ∷ [])
        → result ≡ (is_empty (held_by left right values taker) && at_least_two (held_by left right values giver)) }
{
    let empty = bag::is_empty(taker);
    empty && bag::at_least_two(giver)
}

// Kind 2: "w's output bag is united into v's and left empty, if neither was empty": the giver is w,
// the taker v.
pub fn can_unite(giver: Bag, taker: Bag) -> bool
    ensures { (left right values : List ℕ) → Pooled left right (taker ∷ giver ∷ [])
        → result ≡ (not (is_empty (held_by left right values giver))
        && not (is_empty (held_by left right values taker))) }
{
    !bag::is_empty(giver) && !bag::is_empty(taker)
}
