// The writer of the adjacency file: rows to the one encoding that numbers records 1 to m in row order.
// Words are stored from the front, so that a prefix of the file is written at any moment. `write` is
// the outside call; it assumes nothing.
#![tactic(auto)]

ghost use Rattle.std.specs.Prelude.{◌≡◌, ◌+◌, ◌*◌, ◌<◌, ◌≤◌, length, take};
ghost use Rattle.numbers.specs.Told.{told};
ghost use Rattle.lists.specs.Lists.{overlay, reaches, falls_from};
ghost use Rattle.graph.specs.Graph.{rows_of};
ghost use Rattle.graph.specs.File.{file_length};
ghost use Rattle.graph.specs.Encode.{encode};
ghost use Rattle.graph.specs.Write.{write_exit, outcome_of_write};
ghost use Rattle.graph.specs.Write.{malformed as Write·malformed};
ghost use Rattle.writer.specs.Steps.{WellFormed, index_after};

use graph::steps::outside_sizes;
use graph::words::{element, put};
use numbers::Refused;

// 11, then 20; otherwise the bytes of the file are written.
pub fn write(offsets: &[u16], targets: &[u16], file: &mut [u8]) -> Result<(), Refused>
    ensures { write_exit (told result) file.new
        ≡ outcome_of_write offsets.now targets.now file.old }
{
    if malformed(offsets, targets) {
        return Err(Refused::BadRows);
    }
    let n = offsets.len() - 1;
    if file.len() < 2 * (2 + n + 2 * targets.len()) {
        return Err(Refused::ShortList);
    }
    put_heads(offsets, targets, n, file);
    put_records(offsets, targets, n, file);
    Ok(())
}

// Whether the rows are malformed: 11.
fn malformed(offsets: &[u16], targets: &[u16]) -> bool
    ensures { result ≡ Write·malformed offsets.now targets.now }
{
    if offsets.len() == 0 {
        return true;
    }
    let n = offsets.len() - 1;
    if outside_sizes(n, targets.len()) {
        return true;
    }
    if falls(offsets) {
        return true;
    }
    if element(offsets, 0) != 0 {
        return true;
    }
    if element(offsets, n) != targets.len() {
        return true;
    }
    any_target_reaches(targets, n)
}

// Whether an offset is less than the one before it.
fn falls(offsets: &[u16]) -> bool
    ensures { result ≡ falls_from 0 offsets.now }
{
    !offsets.is_sorted()
}

// Whether a target is `limit` or more.
fn any_target_reaches(targets: &[u16], limit: usize) -> bool
    ensures { result ≡ reaches limit targets.now }
{
    targets.iter().any(|target| limit <= usize::from(*target))
}

// The index of the record that stands after k records, or 0 where the row ends there.
fn index_after(k: usize, end: usize) -> usize
    requires { k < 65535 }
    ensures value { result ≡ index_after k end }
    ensures upper_bound { result < 65536 }
{
    if k == end {
        return 0;
    }
    k + 1
}

// Stores n, m and the heads.
fn put_heads(offsets: &[u16], targets: &[u16], n: usize, file: &mut [u8])
    requires well_formed { WellFormed offsets.now targets.now n }
    requires targets_in_bounds { file_length n (length targets.now) ≤ length file.old }
    ensures { file.new
        ≡ overlay (take (2 * (2 + n)) (encode (rows_of offsets.now targets.now)))
        file.old }
{
    put(file, 0, n);
    put(file, 1, targets.len());
    for vertex in 0..n {
        let head = index_after(element(offsets, vertex), element(offsets, vertex + 1));
        put(file, 2 + vertex, head);
    }
}

// Stores the records, behind n, m and the heads.
fn put_records(offsets: &[u16], targets: &[u16], n: usize, file: &mut [u8])
    requires well_formed { WellFormed offsets.now targets.now n }
    requires targets_in_bounds { file_length n (length targets.now) ≤ length file.old }
    requires file_value { file.old ≡ overlay (take (2 * (2 + n)) (encode (rows_of offsets.now targets.now))) file.old }
    ensures { file.new
        ≡ overlay (encode (rows_of offsets.now targets.now)) file.old }
{
    for vertex in 0..n {
        let end = element(offsets, vertex + 1);
        for k in element(offsets, vertex)..end {
            let place = 2 + n + 2 * k;
            put(file, place, element(targets, k));
            put(file, place + 1, index_after(k + 1, end));
        }
    }
}
