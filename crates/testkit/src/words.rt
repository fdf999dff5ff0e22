// Lists of 16-bit numbers, whose places are such numbers too, and sums of them.
ghost use Rattle.std.specs.Prelude.{◌<◌};

use crate::contents;
pub use crate::contents::{agree, at as at_place, first, holds, is_stamped, lent, stamp, stamp_of};

// What stands at the place, or 0 past the end.
pub fn at(list: &[u16], place: u16) -> u16 {
    contents::at(list, usize::from(place))
}

// Stores the value; past the end nothing.
pub fn put(list: &mut [u16], place: u16, value: u16) {
    contents::put(list, usize::from(place), value);
}

// A row of a table; zeros outside it.
pub fn row_of<const COLUMNS: usize>(table: &[[u16; COLUMNS]], row: u16) -> [u16; COLUMNS] {
    table.get(usize::from(row)).copied().unwrap_or([0; COLUMNS])
}

// The sum of a list.
pub fn total(list: &[u16]) -> usize {
    let counts = list.iter();
    counts.fold(0, |sum: usize, count| sum.wrapping_add(usize::from(*count)))
}

// How many places a list has beyond one short of its need: 0, 1 or 6. Choices are numbers because they
// are the digits of a case's number.
pub fn extra(choice: u16) -> usize
    ensures { result < 100000 }
{
    if choice == 2 { 6 } else { usize::from(choice) }
}

// What is chosen for three lists: the combination's digits to the base 3.
pub fn choices(combination: u16) -> [u16; 3] {
    [combination % 3, combination / 3 % 3, combination / 9 % 3]
}

// One less than the need.
pub fn short(need: usize) -> usize {
    need.wrapping_sub(1)
}
