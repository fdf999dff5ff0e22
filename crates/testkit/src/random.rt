// Pseudo-random numbers: the multiplicative generator with modulus 2^31 - 1 and multiplier 48,271.

// The number after `seed`. It is 0 only where the seed is a multiple of the modulus.
pub fn next(seed: u64) -> u64 {
    seed % 2147483647 * 48271 % 2147483647
}

// The number 1,000,003 places further: the start of a run of numbers that no other part uses. The
// factor is 48,271 to that power.
pub fn leap(seed: u64) -> u64 {
    seed % 2147483647 * 1419882476 % 2147483647
}

// A number below the bound, drawn by the seed; 0 where the bound is 0.
pub fn below(seed: u64, bound: u16) -> u16 {
    let drawn = (seed / 8 % 65536) as u16;
    drawn.checked_rem(bound).unwrap_or(0)
}
