// Sums and products that never fail: they wrap.

// `count` times the amount.
pub fn times(count: u16, amount: usize) -> usize {
    usize::from(count).wrapping_mul(amount)
}

// P × n + 1: the need of a node list.
pub fn places(vertices: u16, workers: u16) -> usize {
    times(workers, usize::from(vertices)).wrapping_add(1)
}

// P × (6 × n + m) + n: the bound on effective events.
pub fn bound(vertices: u16, edges: u16, workers: u16) -> usize {
    let n = usize::from(vertices);
    times(workers, 6 * n + usize::from(edges)).wrapping_add(n)
}
