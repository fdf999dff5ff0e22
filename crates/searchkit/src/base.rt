// Case A of document 01, which the tables of refusals start from.
use testkit::words::at;

// The file: n and m; the heads; the records, target and next. 28 bytes.
pub const FILE: [u16; 14] = [4, 4, 1, 3, 4, 0, 1, 2, 2, 0, 3, 0, 3, 0];

// The schedule, whose last byte finishes the search, and one byte more.
pub const SCHEDULE: [u8; 26] = [
    0, 0, 0, 0, 0, 0, 0, 0, 0, 192, 72, 0, 8, 0, 8, 0, 8, 8, 0, 0, 8, 192, 0, 0, 192, 0,
];

// The last digits of the first four numbers.
fn digits(list: &[u16]) -> u64 {
    let digit = |place: u16| u64::from(at(list, place) % 10);
    digit(0) * 1000 + digit(1) * 100 + digit(2) * 10 + digit(3)
}

// The last digits of the first four distances, then of the first four parents, then of the first four
// counts.
pub fn code(distances: &[u16], parents: &[u16], histogram: &[u16]) -> u64 {
    let labels = digits(distances) % 10000 * 10000 + digits(parents) % 10000;
    labels * 10000 + digits(histogram) % 10000
}
