// The input's parts, and the program's own order of refusals.
ghost use Rattle.std.specs.Prelude.{◌≡◌};
ghost use Rattle.numbers.specs.Refusals.{first};
ghost use Rattle.numbers.specs.Told.{told};
ghost use Rattle.report.specs.Input.{sizes_refusals, own_refusals};

use crate::{PROGRAM_EDGES, PROGRAM_EVENTS, PROGRAM_VERTICES};
use graph::steps;
use graph::words::word;
use numbers::Refused;

// 2 and 20 by n and m.
#[tactic(auto, using(crate::proofs::InputFacts::sizes_order))]
fn check_sizes(n: usize, m: usize) -> Result<(), Refused>
    ensures { told result ≡ first (sizes_refusals n m) }
{
    if steps::outside_sizes(n, m) {
        return Err(Refused::BadSize);
    }
    if PROGRAM_VERTICES < n {
        return Err(Refused::ShortList);
    }
    if PROGRAM_EDGES < m {
        return Err(Refused::ShortList);
    }
    Ok(())
}

// Fewer than three words 1; sheet length too large 20; input ending before 4 bytes of file 1; then
// the sizes.
#[tactic(auto, using(crate::proofs::InputFacts::own_order))]
pub fn check_input(input: &[u8]) -> Result<(), Refused>
    ensures { told result ≡ first (own_refusals input.now) }
{
    if input.len() < 6 {
        return Err(Refused::BadLength);
    }
    let events = word(input, 2);
    let long = PROGRAM_EVENTS < events;
    if long {
        return Err(Refused::ShortList);
    }
    let start = 6 + events;
    if input.len() < start + 4 {
        return Err(Refused::BadLength);
    }
    let file = &input[start..];
    check_sizes(word(file, 0), word(file, 1))
}
