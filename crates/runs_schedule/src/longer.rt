// Schedules of 300 events, all that P workers have, in which one byte is replaced at the first place, at a
// middle one and at the last one, by every byte; and the empty schedule.
use crate::composed::{events_of, number};
use numbers::told;
use std::io;
use testkit::group::{Tally, all};

// 300 events, one after the other and again from the first on. It goes over all bytes 150 times: one
// worker has two events.
fn schedule_of(events: &[bool; 256]) -> [u8; 300] {
    let mut bytes = [0u8; 300];
    let mut places = bytes.iter_mut();
    for _ in 0..150 {
        for (byte, is_event) in (0..=255u8).zip(events) {
            if *is_event {
                if let Some(place) = places.next() {
                    *place = byte;
                }
            }
        }
    }
    bytes
}

// Every byte at a place of a schedule whose other bytes are events.
fn at_place(place: usize, workers: usize) -> Tally {
    let events = events_of(workers);
    let mut bytes = schedule_of(&events);
    let mut tally = Tally::new();
    for (byte, is_event) in (0..=255u8).zip(&events) {
        bytes[place % 300] = byte;
        let answer = schedule::check_schedule(&bytes, workers);
        tally = tally.with(told(&answer) == number(workers, *is_event));
    }
    tally
}

// Every byte at three places, for a P.
fn at_places(workers: usize) -> Tally {
    let first = at_place(0, workers);
    let middle = at_place(150, workers);
    let last = at_place(299, workers);
    first.and(middle).and(last)
}

// The empty schedule, for every P from 1 to 8.
fn empty() -> Tally {
    all(1..=8, |workers| {
        schedule::check_schedule(&[], workers).is_ok()
    })
}

pub fn run(rt: &impl Print) -> io::Result<()> {
    let few = at_places(1).and(at_places(2));
    let many = at_places(5).and(at_places(8));
    few.and(many).print(rt, "a byte in a longer schedule")?;
    empty().print(rt, "empty schedule")
}
