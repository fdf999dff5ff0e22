// The program's output read back: line one, and a line for each vertex. A number has no zero in
// front, and one space or a line feed behind it. What is not of this form gives `None`.
use searchkit::requests::{Seen, is_played};
use testkit::words::put;

// What a list of labels has for `-`.
const UNSET: u16 = 65535;

// The number that digits are, where there is one and no zero stands in front.
fn value(digits: &[u8]) -> Option<usize> {
    let is_padded = digits.len() > 1 && digits.starts_with(b"0");
    if digits.is_empty() || is_padded || !digits.iter().all(u8::is_ascii_digit) {
        return None;
    }
    let add = |value: usize, digit: &u8| value % 100000000 * 10 + usize::from(*digit % 16);
    Some(digits.iter().fold(0, add))
}

// A number, and the text behind the byte that must stand behind it.
fn field(text: &[u8], end: u8) -> Option<(usize, &[u8])> {
    let count = text.iter().position(|byte| *byte == end)?;
    Some((value(&text[..count])?, &text[count + 1..]))
}

// The same of a number below the unset one, or `-`.
fn label(text: &[u8], end: u8) -> Option<(u16, &[u8])> {
    if let [b'-', last, rest @ ..] = text {
        return (*last == end).then_some((UNSET, rest));
    }
    let (number, rest) = field(text, end)?;
    let label = u16::try_from(number).ok()?;
    (label < UNSET).then_some((label, rest))
}

// Puts the labels of a vertex's line into the lists. The answer is the text behind it.
fn line<'a>(
    text: &'a [u8],
    vertex: u16,
    distances: &mut [u16],
    parents: &mut [u16],
) -> Option<&'a [u8]> {
    let (number, rest) = field(text, b' ')?;
    let (distance, rest) = label(rest, b' ')?;
    let (parent, rest) = label(rest, b'\n')?;
    put(distances, vertex, distance);
    put(parents, vertex, parent);
    (number == usize::from(vertex)).then_some(rest)
}

// The same of the lines of the first vertices.
fn lines<'a>(
    text: &'a [u8],
    vertices: u16,
    distances: &mut [u16],
    parents: &mut [u16],
) -> Option<&'a [u8]> {
    let mut rest = text;
    for vertex in 0..vertices {
        rest = line(rest, vertex, distances, parents)?;
    }
    Some(rest)
}

// Zeros stand beside a refusal's number.
fn is_bare(seen: Seen) -> bool {
    is_played(seen.number) | ((seen.used == 0) & (seen.effective == 0) & (seen.layer == 0))
}

// What the whole output says, where its form is right and nothing stands behind it.
pub fn read(
    text: &[u8],
    vertices: u16,
    distances: &mut [u16],
    parents: &mut [u16],
) -> Option<Seen> {
    let (number, rest) = field(text, b' ')?;
    let (used, rest) = field(rest, b' ')?;
    let (effective, rest) = field(rest, b' ')?;
    let (layer, rest) = field(rest, b'\n')?;
    let seen = Seen {
        number,
        used,
        effective,
        layer,
    };
    let count = if is_played(number) { vertices } else { 0 };
    let rest = lines(rest, count, distances, parents)?;
    (rest.is_empty() && is_bare(seen)).then_some(seen)
}
