// The node lists as a whole: chained free at the start, cleared at the end.
ghost use Rattle.std.specs.Prelude.{◌≡◌, [], ◌∷◌, ◌++◌, ◌<◌, ◌≤◌, length, replicate};
ghost use Rattle.lists.specs.Lists.{overlay, numbers_from};

// Chains the nodes 1 to `nodes` free.
pub fn pool(left: &mut [u16], nodes: usize)
    requires nodes_in_bounds { nodes < length left.old }
    requires nodes_bound { nodes < 65536 }
    ensures { left.new ≡ overlay (numbers_from 1 nodes ++ 0 ∷ []) left.old }
{
    // Place i gets a number made of i. `as` stays: try_from and unwrap ask for the same bound.
    for i in 0..nodes {
        left[i] = (i + 1) as u16;
    }
    left[nodes] = 0;
}

// Clears the first `places` places of the three lists.
#[tactic(auto, unfolding(lists::specs::Lists::overlay))]
pub fn sweep(left: &mut [u16], right: &mut [u16], values: &mut [u16], places: usize)
    requires places_in_bounds { places ≤ length left.old }
    requires places_in_bounds_2 { places ≤ length right.old }
    requires places_in_bounds_3 { places ≤ length values.old }
    ensures left_after { left.new ≡ overlay (replicate places 0) left.old }
    ensures right_after { right.new ≡ overlay (replicate places 0) right.old }
    ensures values_after { values.new ≡ overlay (replicate places 0) values.old }
{
    left[..places].fill(0);
    right[..places].fill(0);
    values[..places].fill(0);
}
