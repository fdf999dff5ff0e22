// A file for each number of refusal. Each case changes two words of one small file, cuts the lists
// to given lengths, and compares the answer and the three lists in full.
use std::io;
use testkit::files::{put_word, put_words};
use testkit::group::{Tally, all};
use testkit::reading::{Lengths, refuses};

// A file that can be read: 4 vertices, 4 edges; the heads; the records, target and next.
const BASE: [u16; 16] = [4, 4, 1, 3, 4, 0, 1, 2, 2, 0, 3, 0, 3, 0, 0, 0];

// The file's length; a place and its word, twice; the lengths of offsets, targets, marks; the
// number. Word 0 as 4 is no change.
#[derive(Clone, Copy)]
struct Case(usize, (usize, u16), (usize, u16), [usize; 3], usize);

const CASES: [Case; 46] = [
    // 1: under 4 bytes
    Case(0, (0, 4), (0, 4), [9, 9, 9], 1),
    Case(1, (0, 4), (0, 4), [9, 9, 9], 1),
    Case(2, (0, 4), (0, 4), [9, 9, 9], 1),
    Case(3, (0, 4), (0, 4), [9, 9, 9], 1),
    // 1 (under 4) before 2
    Case(3, (0, 0), (0, 0), [9, 9, 9], 1),
    // 2: n or m outside its size, in whole files and in files of 4 bytes
    Case(28, (0, 0), (0, 0), [9, 9, 9], 2),
    Case(4, (0, 0), (1, 0), [9, 9, 9], 2),
    Case(28, (0, 4097), (0, 4097), [9, 9, 9], 2),
    Case(28, (0, 65535), (0, 65535), [9, 9, 9], 2),
    Case(28, (0, 4), (1, 32769), [9, 9, 9], 2),
    Case(28, (0, 4), (1, 65535), [9, 9, 9], 2),
    Case(4, (0, 4097), (1, 32769), [9, 9, 9], 2),
    Case(28, (0, 0), (1, 32769), [0, 0, 0], 2),
    // 1: the length
    Case(27, (0, 4), (0, 4), [9, 9, 9], 1),
    Case(29, (0, 4), (0, 4), [9, 9, 9], 1),
    Case(4, (0, 4), (0, 4), [9, 9, 9], 1),
    Case(26, (0, 4), (0, 4), [9, 9, 9], 1),
    Case(32, (0, 4), (0, 4), [9, 9, 9], 1),
    Case(28, (0, 4096), (1, 32768), [9, 9, 9], 1),
    Case(28, (0, 5), (0, 5), [9, 9, 9], 1),
    // 1 (length) before 4, 3 and 20
    Case(27, (2, 5), (6, 4), [0, 0, 0], 1),
    // 4: a head or next above m
    Case(28, (2, 5), (0, 4), [9, 9, 9], 4),
    Case(28, (5, 65535), (0, 4), [9, 9, 9], 4),
    Case(28, (7, 5), (0, 4), [9, 9, 9], 4),
    Case(28, (13, 65535), (0, 4), [9, 9, 9], 4),
    // 4 before 3, though the target stands first; 4 before 20
    Case(28, (6, 4), (13, 5), [9, 9, 9], 4),
    Case(28, (6, 4), (2, 5), [0, 0, 0], 4),
    // 3: a target of n or more; 3 before 20 and 5
    Case(28, (6, 4), (0, 4), [9, 9, 9], 3),
    Case(28, (12, 4), (0, 4), [9, 9, 9], 3),
    Case(28, (8, 65535), (0, 4), [9, 9, 9], 3),
    Case(28, (6, 4), (5, 1), [4, 3, 3], 3),
    // 20: each list one short, and all empty
    Case(28, (0, 4), (0, 4), [4, 4, 4], 20),
    Case(28, (0, 4), (0, 4), [5, 3, 4], 20),
    Case(28, (0, 4), (0, 4), [5, 4, 3], 20),
    Case(28, (0, 4), (0, 4), [0, 0, 0], 20),
    // 20 before 5 and 6
    Case(28, (5, 1), (0, 4), [5, 4, 3], 20),
    Case(28, (4, 0), (0, 4), [4, 4, 4], 20),
    // 5: two heads to one record, a cycle, a record that names itself, two chains that join
    Case(28, (5, 1), (0, 4), [9, 9, 9], 5),
    Case(28, (9, 1), (0, 4), [9, 9, 9], 5),
    Case(28, (11, 3), (0, 4), [5, 4, 4], 5),
    Case(28, (11, 4), (0, 4), [9, 9, 9], 5),
    // 5 before 6
    Case(28, (4, 3), (0, 4), [9, 9, 9], 5),
    // 6: no head, a chain cut short, a cycle that no head leads to, no head at all
    Case(28, (4, 0), (0, 4), [9, 9, 9], 6),
    Case(28, (7, 0), (0, 4), [5, 4, 4], 6),
    Case(28, (4, 0), (13, 4), [9, 9, 9], 6),
    Case(28, (2, 0), (3, 0), [9, 9, 9], 6),
];

// A whole file, and lists that are longer than the need.
fn whole(length: usize) -> Lengths {
    Lengths {
        file: length,
        offsets: 9,
        targets: 9,
        marks: 9,
    }
}

// Whether a file is turned down with the number.
fn is_refused(file: &[u8], lent: Lengths, number: usize) -> bool {
    let mut offsets = [0u16; 9];
    let mut targets = [0u16; 9];
    let mut marks = [0u16; 9];
    refuses(file, &mut offsets, &mut targets, &mut marks, lent, number)
}

// The base file with the two words of a case, and the lists cut to its lengths.
fn is_right(case: &Case) -> bool {
    let Case(length, (place, word), (other_place, other), [offsets, targets, marks], number) =
        *case;
    let lent = Lengths {
        file: length,
        offsets,
        targets,
        marks,
    };
    let mut file = [0u8; 32];
    put_words(&mut file, &BASE);
    put_word(&mut file, place, word);
    put_word(&mut file, other_place, other);
    is_refused(&file, lent, number)
}

fn table() -> Tally {
    all(CASES.iter(), is_right)
}

// The smallest files of 6, 5 and 2: no head to the only record; a record after itself; nothing.
fn smallest() -> Tally {
    let unreached = is_refused(&[1, 0, 1, 0, 0, 0, 0, 0, 0, 0], whole(10), 6);
    let repeated = is_refused(&[1, 0, 1, 0, 1, 0, 0, 0, 1, 0], whole(10), 5);
    let none = is_refused(&[0, 0, 0, 0], whole(4), 2);
    Tally::new().with(unreached).with(repeated).with(none)
}

pub fn run(rt: &impl Print) -> io::Result<()> {
    table().and(smallest()).print(rt, "refusals")
}
