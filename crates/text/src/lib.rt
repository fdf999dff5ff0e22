// Prints numbers and labels as text into a list of bytes, one behind the other. Each step is told at
// which place to print and answers the place behind what it printed. The programs and the pages print
// by these steps. Output and place stay parameters: a struct of both was tried, and each method had to
// say besides that the list lent is the same one and keeps its length.
#![tactic(auto)]

ghost use Rattle.std.specs.Prelude.{◌≡◌, [], ◌∷◌, ◌++◌, ◌+◌, ◌<◌, ◌≤◌, max, length};
ghost use Rattle.text.specs.Text.{decimal, label_text, right_aligned};
ghost use Rattle.text.specs.Printed.{Prints};

use numbers::WIDE_UNSET;

// Between the fields of a line, and before one that is right-aligned.
pub const SPACE: u8 = 32;

// At the end of a line.
pub const LINE_FEED: u8 = 10;

// The width of a field without columns of its own: it begins where the one before it ends.
pub const UNALIGNED: usize = 0;

// All of a text.
pub fn put_text(output: &mut [u8], at: usize, text: &[u8]) -> usize
    requires { at + length text.now ≤ length output.old }
    ensures value { result ≡ at + length text.now }
    ensures prints { Prints text.now output.old at output.new result }
{
    let next = at + text.len();
    output[at..next].copy_from_slice(text);
    next
}

// A text, right-aligned in so many columns, and a space or a line feed behind it.
fn put_aligned(output: &mut [u8], at: usize, text: &[u8], width: usize, delimiter: u8) -> usize
    requires { at + max width (length text.now) < length output.old }
    ensures value { result ≡ at + max width (length text.now) + 1 }
    ensures prints { Prints (right_aligned width text.now ++ (delimiter ∷ [])) output.old at output.new result }
{
    let start = at + width.saturating_sub(text.len());
    output[at..start].fill(SPACE);
    let next = put_text(output, start, text);
    put_text(output, next, &[delimiter])
}

// A number in decimal, right-aligned in so many columns, and a space or a line feed behind it. `write!`
// would add a way to fail: it promises its bytes where it succeeds, and nothing promises that it does.
pub fn put_field(output: &mut [u8], at: usize, x: usize, width: usize, delimiter: u8) -> usize
    requires { at + max width (length (decimal x)) < length output.old }
    ensures value { result ≡ at + max width (length (decimal x)) + 1 }
    ensures prints { Prints (right_aligned width (decimal x) ++ (delimiter ∷ [])) output.old at output.new result }
{
    let mut digits = [0u8; 20];
    let count = io::decimal(x as u64, &mut digits);
    put_aligned(output, at, &digits[..count], width, delimiter)
}

// A distance or a parent, `-` for unset, right-aligned in so many columns, and a space or a line feed
// behind it.
#[tactic(auto, unfolding(crate::specs::Text::label_text))]
pub fn put_label(output: &mut [u8], at: usize, word: usize, width: usize, delimiter: u8) -> usize
    requires { at + max width (length (label_text word)) < length output.old }
    ensures value { result ≡ at + max width (length (label_text word)) + 1 }
    ensures prints { Prints (right_aligned width (label_text word) ++ (delimiter ∷ []))
        output.old at output.new result }
{
    match word {
        WIDE_UNSET => put_aligned(output, at, b"-", width, delimiter),
        _ => put_field(output, at, word, width, delimiter),
    }
}
