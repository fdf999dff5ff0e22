// The full adder of 000: three pennants of one size, some of them missing, become one of that size
// and one of twice the size.
ghost use Rattle.std.specs.Prelude.{◌≡◌, [], ◌∷◌, ℕ, ◌<◌, ◌≤◌, length};
ghost use Rattle.bag.specs.Table.{present, row_of, term, entry_at};
ghost use Rattle.bag.specs.Steps.{linked_left, linked_right, Pennants, Added};

use crate::nodes::link;

// 000's table. A row for each x + 2y + 4z, where a pennant that is there counts 1: which of none (0),
// x (1), y (2) and z (3) is the sum, and of which two the carry is the union, its root first.
const TABLE: [[u8; 3]; 8] = [
    [0, 0, 0],
    [1, 0, 0],
    [2, 0, 0],
    [0, 1, 2],
    [3, 0, 0],
    [0, 1, 3],
    [0, 2, 3],
    [1, 2, 3],
];

// s and c of FA.
#[derive(Clone, Copy)]
pub struct Sum {
    pub slot: u16,
    pub carry: u16,
}

// 1 for a pennant that is there.
fn filled(x: u16) -> usize
    ensures value { result ≡ present x }
    ensures upper_bound { result ≤ 1 }
{
    usize::from(x != 0)
}

// The row of x, y and z.
fn row_of(x: u16, y: u16, z: u16) -> usize
    ensures value { result ≡ row_of x y z }
    ensures upper_bound { result < 8 }
{
    filled(x) + 2 * filled(y) + 4 * filled(z)
}

// What the table has in a row and a column.
fn entry(row: usize, column: usize) -> usize
    requires row_bound { row < 8 }
    requires column_bound { column < 3 }
    ensures { result ≡ entry_at row column }
{
    usize::from(TABLE[row][column])
}

// The pennant that this entry stands for.
fn pick(row: usize, column: usize, x: u16, y: u16, z: u16) -> u16
    requires row_bound { row < 8 }
    requires column_bound { column < 3 }
    ensures { result ≡ term x y z (entry_at row column) }
{
    let terms: [u16; 4] = [0, x, y, z];
    terms[entry(row, column)]
}

// PENNANT-UNION of x and y; the lists stay as they are where x is 0.
fn link_some(x: u16, y: u16, left: &mut [u16], right: &mut [u16])
    requires x_in_bounds { x < length left.old }
    requires y_in_bounds { y < length right.old }
    ensures left_after { left.new ≡ linked_left x y left.old }
    ensures right_after { right.new ≡ linked_right x y left.old right.old }
{
    if x != 0 {
        link(x, y, left, right);
    }
}

// FA(x, y, z).
pub fn add(x: u16, y: u16, z: u16, left: &mut [u16], right: &mut [u16]) -> Sum
    requires x_in_bounds { x < length left.old }
    requires y_in_bounds { y < length left.old }
    requires z_in_bounds { z < length left.old }
    requires left_in_bounds { length left.old ≤ length right.old }
    ensures { (k : ℕ) → Pennants left.old right.old k (x ∷ y ∷ z ∷ [])
        → Added left.old right.old k x y z
        left.new right.new result.slot result.carry }
{
    let row = row_of(x, y, z);
    let root = pick(row, 1, x, y, z);
    link_some(root, pick(row, 2, x, y, z), left, right);
    Sum {
        slot: pick(row, 0, x, y, z),
        carry: root,
    }
}
