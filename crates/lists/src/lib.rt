// List definitions (specs/) and facts about them (proofs/) that several crates share and the
// toolchain's libraries lack; and the few functions that several crates' code shares.
#![tactic(auto)]

ghost use Rattle.std.specs.Prelude.{◌≡◌, ◌<◌, ◌≤◌, length, get_or, set, replicate};
ghost use Rattle.lists.specs.Lists.{overlay};

// What the list has at place x.
pub fn at(list: &[u16], x: u16) -> u16
    requires { x < length list.now }
    ensures { result ≡ get_or list.now x 0 }
{
    list[usize::from(x)]
}

// Stores y at place x.
pub fn put(list: &mut [u16], x: u16, y: u16)
    requires { x < length list.old }
    ensures { list.new ≡ set list.old x y }
{
    list[usize::from(x)] = y;
}

// Sets the first `count` places to y.
pub fn fill(list: &mut [u16], count: usize, y: u16)
    requires { count ≤ length list.old }
    ensures { list.new ≡ overlay (replicate count y) list.old }
{
    list[..count].fill(y);
}

// Sets the first `count` places to 0.
pub fn clear(list: &mut [u16], count: usize)
    requires { count ≤ length list.old }
    ensures { list.new ≡ overlay (replicate count 0) list.old }
{
    fill(list, count, 0);
}
