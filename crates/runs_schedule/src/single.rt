// Schedules of one byte: every byte for every P from 0 to 9, and some bytes whose number is written
// out.
use crate::composed::{events_of, number};
use numbers::told;
use std::io;
use testkit::group::{Tally, all};

// The number of the schedule that is this byte alone.
fn number_of(byte: u8, workers: usize) -> usize {
    told(&schedule::check_schedule(&[byte], workers))
}

// The numbers of all bytes for a P.
fn numbers_of(workers: usize) -> [usize; 256] {
    let mut numbers = [0; 256];
    for byte in 0..=255u8 {
        numbers[usize::from(byte)] = number_of(byte, workers);
    }
    numbers
}

// Every byte for a P, by its number.
fn every_byte(workers: usize, numbers: &[usize; 256]) -> Tally {
    let events = events_of(workers);
    let cases = numbers.iter().zip(&events);
    all(cases, |(answer, is_event)| {
        *answer == number(workers, *is_event)
    })
}

// Every byte for every P, and writes how many bytes were taken for each.
fn every_p(rt: &impl Print) -> io::Result<Tally> {
    let mut tally = Tally::new();
    for workers in 0..=9 {
        let numbers = numbers_of(workers);
        tally = tally.and(every_byte(workers, &numbers));
        let count = numbers.iter().filter(|answer| **answer == 0).count();
        print!(rt; " {count}")?;
    }
    Ok(tally)
}

// 72 is 64 × 1 + 8 × 1 + 0: worker 1 takes from worker 0. One worker has two events, 0 and 192.
fn by_hand() -> Tally {
    Tally::new()
        .with(number_of(72, 1) == 9)
        .with(number_of(72, 2) == 0)
        .with(number_of(0, 1) == 0)
        .with(number_of(192, 1) == 0)
}

pub fn run(rt: &impl Print) -> io::Result<()> {
    print!(rt; "bytes taken for P from 0 to 9:")?;
    let all = every_p(rt)?;
    println!(rt)?;
    all.print(rt, "every byte for every P")?;
    by_hand().print(rt, "bytes by hand")
}
