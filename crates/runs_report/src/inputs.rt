// Inputs of the program: three words, the schedule, the file.
use searchkit::base::{FILE, SCHEDULE};
use searchkit::requests::Request;
use testkit::files::{copy, first, put_word_at, put_words};

// The words of an input. The events are a number that it says: its schedule may be shorter.
#[derive(Clone, Copy)]
pub struct Parts {
    pub source: u16,
    pub workers: u16,
    pub events: u16,
}

// Where the file starts.
pub fn file_start(events: u16) -> usize {
    6 + usize::from(events)
}

// The three words.
pub fn put_head(input: &mut [u8], source: u16, workers: u16, events: u16) {
    put_words(input, &[source, workers, events]);
}

// Stores a word of the file.
pub fn put_file_word(input: &mut [u8], events: u16, place: u16, word: u16) {
    let i = file_start(events).wrapping_add(2 * usize::from(place));
    put_word_at(input, i, word);
}

// Puts an input together. The answer is its length.
pub fn compose(input: &mut [u8], parts: Parts, schedule: &[u8], file: &[u8]) -> usize {
    let start = file_start(parts.events);
    put_head(input, parts.source, parts.workers, parts.events);
    copy(first(schedule, usize::from(parts.events)), input, 6);
    copy(file, input, start);
    start.wrapping_add(file.len())
}

// Case A's input with the first bytes of its schedule. The answer is its length.
pub fn put_square(input: &mut [u8], events: u16) -> usize {
    let mut file = [0u8; 28];
    put_words(&mut file, &FILE);
    let parts = Parts {
        source: 0,
        workers: 2,
        events,
    };
    compose(input, parts, &SCHEDULE, &file)
}

// What the program is given instead of a call of the search.
pub fn parts_of(request: Request) -> Parts {
    Parts {
        source: request.source,
        workers: request.workers,
        events: (request.schedule % 65536) as u16,
    }
}
