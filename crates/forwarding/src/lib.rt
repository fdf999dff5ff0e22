// The list of sleepers (sleepy vertices), which comes with a file: whether a source and a list can be
// taken, whether a vertex may pass messages on, and where a file ends that sleepers follow. No crate
// uses these steps yet.
#![tactic(auto)]

ghost use Rattle.std.specs.Prelude.{◌≡◌, ◌<◌, ◌≤◌, length};
ghost use Rattle.numbers.specs.Told.{told};
ghost use Rattle.lists.specs.Lists.{largest};
ghost use Rattle.forwarding.specs.Sleepers.{may_forward, sleepers_wrong, source_number};
ghost use Rattle.forwarding.specs.Behind.{file_at};

use graph::words::word;
use numbers::Refused;

// The largest byte; 0 where there are none. The fold has no exit on the way, so it is compiled to
// steps over many bytes at a time.
fn largest_byte(bytes: &[u8]) -> u8
    ensures { result ≡ largest bytes.now }
{
    bytes.iter().fold(0, |found, byte| found.max(*byte))
}

// 12: "a sleeper byte above 1 or a list not of n bytes".
fn sleepers_wrong(n: usize, sleepers: &[u8]) -> bool
    ensures { result ≡ sleepers_wrong n sleepers.now }
{
    if sleepers.len() != n {
        return true;
    }
    1 < largest_byte(sleepers)
}

// 7, then 12, of a call for n vertices.
pub fn check_source(n: usize, source: usize, sleepers: &[u8]) -> Result<(), Refused>
    ensures { told result ≡ source_number n source sleepers.now }
{
    if n <= source {
        return Err(Refused::BadSource);
    }
    if sleepers_wrong(n, sleepers) {
        return Err(Refused::BadSleepers);
    }
    Ok(())
}

// "the source or a device that is awake": whether the vertex may pass messages on. One look at one
// byte.
pub fn may_forward(vertex: usize, source: usize, sleepers: &[u8]) -> bool
    requires { vertex < length sleepers.now }
    ensures { result ≡ may_forward source sleepers.now vertex }
{
    if vertex == source {
        return true;
    }
    sleepers[vertex] != 1
}

// How many bytes of these are the file that they begin with, by its n and m: all of them where the file
// is cut short. What follows are the sleepers.
pub fn file_size(bytes: &[u8]) -> usize
    requires { 4 ≤ length bytes.now }
    ensures value { result ≡ length (file_at bytes.now) }
    ensures upper_bound { result ≤ length bytes.now }
{
    let size = 2 * (2 + word(bytes, 0) + 2 * word(bytes, 1));
    size.min(bytes.len())
}
