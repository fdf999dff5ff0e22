// The event of every byte, by `schedule::decode` and by `EventTable::look_up`: the byte composed of
// it must be the byte itself, or none where the byte is stray.
use crate::composed::{byte_of, events_of};
use schedule::EventTable;
use std::io;
use testkit::group::Tally;

// Every byte, decoded and looked up; and how many are decoded as malformed.
pub fn run(rt: &impl Print) -> io::Result<()> {
    let table = EventTable::new();
    let events = events_of(8);
    let mut tally = Tally::new();
    let mut malformed: u64 = 0;
    for byte in 0..=255u8 {
        let expected = if events[usize::from(byte)] {
            Some(byte)
        } else {
            None
        };
        let decoded = byte_of(schedule::decode(byte));
        let looked_up = byte_of(table.look_up(byte));
        tally = tally.with(decoded == expected).with(looked_up == expected);
        malformed = malformed.wrapping_add(u64::from(decoded.is_none()));
    }
    tally.print(rt, "every byte's event")?;
    println!(rt; "{malformed} malformed")
}
