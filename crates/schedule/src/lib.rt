// A schedule (document 01: event sheet) is a list of event bytes. `decode` says what event a byte is;
// `EventTable::look_up` says it by a table that is made once, and the engine plays by that.
// `check_schedule` says whether a schedule is taken. All go by one table, module `entries`.
#![tactic(auto)]

ghost use Rattle.std.specs.Prelude.{◌≡◌, ◌≤◌, ◌<◌, get_or};
ghost use Rattle.numbers.specs.Told.{told};
ghost use Rattle.schedule.specs.Events.{event_of, within};
ghost use Rattle.schedule.specs.Table.{entry_of, byte_table, Fits};
ghost use Rattle.schedule.specs.Check.{any_stray, schedule_number};

use entries::MALFORMED_KIND;
use numbers::Refused;

mod entries;

pub use entries::byte_table;

// An event, by document 01's kinds 0 to 3; `Malformed` is a byte that is of none of their forms.
#[derive(Clone, Copy)]
pub enum Event {
    Work { worker: usize },
    Split { taker: usize, giver: usize },
    Unite { giver: usize, taker: usize },
    Close,
    Malformed,
}

// The table of event bytes. A value has the entries that the formula gives, so a look-up asks nothing
// of its caller.
#[derive(Clone, Copy)]
pub struct EventTable {
    pub entries: [u8; 768],
    pub ghost whole: { entries ≡ byte_table },
}

impl EventTable {
    // The compiler builds a constant where it is used, so a function with a loop makes its table
    // once, ahead of the loop.
    pub fn new() -> Self
        ensures { result.entries ≡ byte_table }
    {
        EventTable {
            entries: byte_table(),
        }
    }

    // What a byte's entry has in a place: kind in 0, w in 1, v in 2.
    fn entry(&self, byte: u8, place: usize) -> usize
        requires { place < 3 }
        ensures { result ≡ get_or (entry_of (event_of byte)) place 0 }
    {
        usize::from(self.entries[3 * usize::from(byte) + place])
    }

    // The event of a byte.
    pub fn look_up(&self, byte: u8) -> Event
        ensures { result ≡ event_of byte }
    {
        let kind = self.entry(byte, 0);
        let w = self.entry(byte, 1);
        let v = self.entry(byte, 2);
        match kind {
            0 => Event::Work { worker: w },
            1 => Event::Split { taker: w, giver: v },
            2 => Event::Unite { giver: w, taker: v },
            3 => Event::Close,
            _ => Event::Malformed,
        }
    }

    // Whether a byte's event is one of document 01's and all its workers are there. It makes every
    // test and branches on none. That P is 1 at least is tested by `check_schedule` alone, so it is no
    // type of its own.
    fn byte_fits(&self, byte: u8, workers: usize) -> bool
        requires { 1 ≤ workers }
        ensures { result ≡ within workers (event_of byte) }
    {
        let kind = self.entry(byte, 0);
        let w = self.entry(byte, 1);
        let v = self.entry(byte, 2);
        (kind != MALFORMED_KIND) & (w < workers) & (v < workers)
    }
}

// The event of a byte.
pub fn decode(byte: u8) -> Event
    ensures { result ≡ event_of byte }
{
    EventTable::new().look_up(byte)
}

// For each byte whether it fits P workers: looked up once, ahead of a schedule in which it may stand
// any number of times.
fn bytes_that_fit(workers: usize) -> [bool; 256]
    requires { 1 ≤ workers }
    ensures { Fits workers result }
{
    let table = EventTable::new();
    let mut fits = [false; 256];
    for byte in 0..=255 {
        fits[usize::from(byte)] = table.byte_fits(byte, workers);
    }
    fits
}

// Whether some byte is outside document 01's forms, or names a worker of P or more: one look-up for
// each byte, and no branch.
fn any_stray(bytes: &[u8], workers: usize) -> bool
    requires { 1 ≤ workers }
    ensures { result ≡ any_stray workers bytes.now }
{
    let fits = bytes_that_fit(workers);
    let mut stray = false;
    for byte in bytes {
        stray |= !fits[usize::from(*byte)];
    }
    stray
}

// 8 or 9; what passes is a schedule that the search takes.
pub fn check_schedule(bytes: &[u8], workers: usize) -> Result<(), Refused>
    ensures { told result ≡ schedule_number bytes.now workers }
{
    let many = numbers::MAX_WORKERS < workers;
    if workers == 0 || many {
        return Err(Refused::BadWorkers);
    }
    let long = numbers::MAX_EVENTS < bytes.len();
    if long || any_stray(bytes, workers) {
        return Err(Refused::BadSchedule);
    }
    Ok(())
}
