// The bytes that are events of P workers, composed and never taken apart: all of document 01's
// events with workers below P, one after the other, and each one's byte is ticked in a list. A byte
// that is not ticked is stray.
use schedule::Event;

// The byte of two workers and a kind, whose first byte is given; of workers past the eighth there is
// none.
fn compose(first: u8, w: usize, v: usize) -> Option<u8> {
    if w < 8 && v < 8 {
        first.checked_add((8 * w + v) as u8)
    } else {
        None
    }
}

// The byte of an event, by document 01's kinds. In a split w takes and v gives, in a union w gives
// and v takes.
pub fn byte_of(event: Event) -> Option<u8> {
    match event {
        Event::Work { worker } => compose(0, worker, 0),
        Event::Split { taker, giver } => compose(64, taker, giver),
        Event::Unite { giver, taker } => compose(128, giver, taker),
        Event::Close => compose(192, 0, 0),
        Event::Malformed => None,
    }
}

fn tick(list: &mut [bool; 256], event: Event) {
    if let Some(byte) = byte_of(event) {
        list[usize::from(byte)] = true;
    }
}

// Ticks the events of w with each other worker.
fn tick_pairs(list: &mut [bool; 256], workers: usize, w: usize) {
    for v in 0..workers {
        if v != w {
            tick(list, Event::Split { taker: w, giver: v });
            tick(list, Event::Unite { giver: w, taker: v });
        }
    }
}

// Ticks all events of so many workers.
pub fn events_of(workers: usize) -> [bool; 256] {
    let mut list = [false; 256];
    tick(&mut list, Event::Close);
    for worker in 0..workers {
        tick(&mut list, Event::Work { worker });
        tick_pairs(&mut list, workers, worker);
    }
    list
}

// The number of a schedule whose bytes are events of the workers, but for one that may be stray: 8
// with 0 workers or 9, then 9 with a stray byte.
pub fn number(workers: usize, is_event: bool) -> usize {
    if workers == 0 || workers == 9 {
        return 8;
    }
    if is_event { 0 } else { 9 }
}
