// The 16-bit words of a file, low byte first, and lists of bytes.
pub use crate::contents::{agree, at, first, is_filled, is_stamped, lent, put, stamp, stamp_of};

// Copies bytes to a place of a list, as far as the list goes.
pub fn copy(bytes: &[u8], list: &mut [u8], place: usize) {
    for (x, byte) in list.iter_mut().skip(place).zip(bytes) {
        *x = *byte;
    }
}

// The word at a place that counts words.
pub fn word(file: &[u8], place: usize) -> u16 {
    let i = place.wrapping_add(place);
    u16::from_le_bytes([at(file, i), at(file, i.wrapping_add(1))])
}

// Stores a word at a place that counts bytes.
pub fn put_word_at(file: &mut [u8], place: usize, word: u16) {
    let [low, high] = word.to_le_bytes();
    put(file, place, low);
    put(file, place.wrapping_add(1), high);
}

// Stores a word at a place that counts words.
pub fn put_word(file: &mut [u8], place: usize, word: u16) {
    put_word_at(file, place.wrapping_add(place), word);
}

// Stores words from the file's start on.
pub fn put_words(file: &mut [u8], words: &[u16]) {
    for (i, word) in words.iter().enumerate() {
        put_word(file, i, *word);
    }
}
