// Single nodes: linked to a pennant of twice the size, split off again, taken from the free chain and
// given back.
ghost use Rattle.std.specs.Prelude.{◌≡◌, [], ◌∷◌, ℕ, suc, ◌<◌, length, get_or, set};
ghost use Rattle.bag.specs.Steps.{Pennants, Halved};

use lists::{at, put};

// PENNANT-UNION of the pennants with the roots x and y; the root is x.
pub fn link(x: u16, y: u16, left: &mut [u16], right: &mut [u16])
    requires x_in_bounds { x < length left.old }
    requires y_in_bounds { y < length right.old }
    ensures left_after { left.new ≡ set left.old x y }
    ensures right_after { right.new ≡ set right.old y (get_or left.old x 0) }
{
    put(right, y, at(left, x));
    put(left, x, y);
}

// PENNANT-SPLIT of the pennant with the root x: x keeps one half, the answer is the root of the other.
// 0 where x is 0.
pub fn halve(x: u16, left: &mut [u16], right: &[u16]) -> u16
    requires x_in_bounds { x < length left.old }
    requires x_in_bounds_2 { (x ≡ 0 → ⊥) → get_or left.old x 0 < length right.now }
    ensures { (k : ℕ) → Pennants left.old right.now (suc k) (x ∷ [])
        → Halved left.old right.now k x left.new result }
{
    if x == 0 {
        return 0;
    }
    let y = at(left, x);
    put(left, x, at(right, y));
    y
}

// Takes the first free node and stores the number there.
pub fn allocate(value: u16, left: &mut [u16], values: &mut [u16]) -> u16
    requires left_nonzero { 0 < length left.old }
    requires left_in_bounds { get_or left.old 0 0 < length left.old }
    requires left_in_bounds_2 { get_or left.old 0 0 < length values.old }
    ensures value { result ≡ get_or left.old 0 0 }
    ensures left_after { left.new ≡ set left.old 0 (get_or left.old result 0) }
    ensures values_after { values.new ≡ set values.old result value }
{
    let x = at(left, 0);
    put(left, 0, at(left, x));
    put(values, x, value);
    x
}

// Puts node x before the first free node.
pub fn release(x: u16, left: &mut [u16])
    requires { x < length left.old }
    ensures { left.new ≡ set (set left.old x (get_or left.old 0 0)) 0 x }
{
    put(left, x, at(left, 0));
    put(left, 0, x);
}
