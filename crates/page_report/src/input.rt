// The input's parts, and the program's own order of refusals.
ghost use Rattle.std.specs.Prelude.{◌≡◌, ◌+◌, ◌*◌, ◌≤◌, length};
ghost use Rattle.numbers.specs.Refusals.{first};
ghost use Rattle.numbers.specs.Told.{told};
ghost use Rattle.lists.specs.Lists.{overlay};
ghost use Rattle.graph.specs.File.{words_at};
ghost use Rattle.page_report.specs.Input.{own_refusals};

use graph::words::{word, word16};
use numbers::Refused;

// Fewer than two words 1; too many distances 20; input ending before 4 bytes of file 1.
#[tactic(auto, using(crate::proofs::InputFacts::own_order))]
pub fn check_input(input: &[u8]) -> Result<(), Refused>
    ensures { told result ≡ first (own_refusals input.now) }
{
    if input.len() < 4 {
        return Err(Refused::BadLength);
    }
    let count = word(input, 1);
    let large = numbers::MAX_VERTICES < count;
    if large {
        return Err(Refused::ShortList);
    }
    if input.len() < 8 + 4 * count {
        return Err(Refused::BadLength);
    }
    Ok(())
}

// Copies the `count` words from `place` on into the first places of the list.
pub fn copy_words(input: &[u8], place: usize, count: usize, list: &mut [u16])
    requires count_in_bounds { 2 * (place + count) ≤ length input.now }
    requires count_in_bounds_2 { count ≤ length list.old }
    ensures { list.new ≡ overlay (words_at input.now place 1 count) list.old }
{
    for (i, x) in list[..count].iter_mut().enumerate() {
        *x = word16(input, place + i);
    }
}
