// Inputs of the page program: words source and count, then the distances, the parents and the file.
use searchkit::base::FILE;
use testkit::files::{copy, put_word, put_word_at, put_words};
use testkit::words::at;

// The words of an input. The count is a number that it says: the lists of labels may be shorter.
#[derive(Clone, Copy)]
pub struct Parts {
    pub source: u16,
    pub count: u16,
}

// Where the file starts.
pub fn file_start(count: u16) -> usize {
    4 + 4 * usize::from(count)
}

// Stores the first numbers of a list, and 0 past its end, as words from a place on that counts words.
fn put_labels(input: &mut [u8], place: usize, list: &[u16], count: u16) {
    for i in 0..count {
        put_word(input, place.wrapping_add(usize::from(i)), at(list, i));
    }
}

// Stores a word of the file.
pub fn put_file_word(input: &mut [u8], count: u16, place: u16, word: u16) {
    let i = file_start(count).wrapping_add(2 * usize::from(place));
    put_word_at(input, i, word);
}

// Puts an input together. The answer is its length.
pub fn compose(
    input: &mut [u8],
    parts: Parts,
    distances: &[u16],
    parents: &[u16],
    file: &[u8],
) -> usize {
    let start = file_start(parts.count);
    put_word(input, 0, parts.source);
    put_word(input, 1, parts.count);
    put_labels(input, 2, distances, parts.count);
    put_labels(input, 2 + usize::from(parts.count), parents, parts.count);
    copy(file, input, start);
    start.wrapping_add(file.len())
}

// Case A's input, with these labels. It has 48 bytes.
pub fn put_square(input: &mut [u8], source: u16, distances: &[u16], parents: &[u16]) {
    let mut file = [0u8; 28];
    put_words(&mut file, &FILE);
    let parts = Parts { source, count: 4 };
    compose(input, parts, distances, parents, &file);
}
