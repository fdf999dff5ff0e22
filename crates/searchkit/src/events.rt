// Drawn schedules: well-formed event bytes of all kinds, with full rounds among them.
use testkit::random::{below, next};
use testkit::words::row_of;

// Which bytes a schedule has: out of 16 draws, how many begin a full round; how many of them or
// work; or split; or unite. The others close. Mixtures are numbers because a case's number gives one
// by `%`.
const MIXTURES: [[u16; 4]; 5] = [
    // full rounds alone
    [16, 16, 16, 16],
    // some of all
    [2, 10, 12, 14],
    // no full rounds
    [0, 11, 12, 14],
    // full rounds with splits between them
    [12, 12, 16, 16],
    // many splits and unions
    [0, 6, 10, 15],
];

// How many mixtures there are.
pub const MIXED: u16 = 5;

pub const CLOSE: u8 = 192;

// What an event of workers does. A close is one byte, `CLOSE`.
#[derive(Clone, Copy)]
pub enum Kind {
    Work = 0,
    Split = 64,
    Unite = 128,
}

// What draws the bytes: its seed, and the worker whose work is next in the full round that was begun.
#[derive(Drop)]
struct Pen {
    seed: u64,
    round: Option<u16>,
}

impl Pen {
    // The next byte.
    fn draw(&mut self, mixture: u16, workers: u16) -> u8 {
        if let Some(worker) = self.round {
            return self.go_round(worker, workers);
        }
        let [rounds, works, splits, unions] = row_of(&MIXTURES, mixture);
        self.seed = next(self.seed);
        let drawn = below(self.seed, 16);
        if drawn < rounds {
            return self.go_round(0, workers);
        }
        let seed = next(self.seed);
        self.seed = next(seed);
        if drawn < works {
            event(Kind::Work, below(seed, workers), 0)
        } else if drawn < splits {
            pair(Kind::Split, workers, seed)
        } else if drawn < unions {
            pair(Kind::Unite, workers, seed)
        } else {
            CLOSE
        }
    }

    // The worker's work in a full round; after the last worker's a close, which ends the round.
    fn go_round(&mut self, worker: u16, workers: u16) -> u8 {
        if workers <= worker {
            self.round = None;
            return CLOSE;
        }
        self.round = Some(worker.wrapping_add(1));
        event(Kind::Work, worker, 0)
    }
}

// The kind + 8 × w + v.
pub fn event(kind: Kind, w: u16, v: u16) -> u8 {
    kind as u8 + (w % 8 * 8 + v % 8) as u8
}

// An event of two different workers; with one worker its work.
fn pair(kind: Kind, workers: u16, seed: u64) -> u8 {
    if workers < 2 {
        return event(Kind::Work, 0, 0);
    }
    let w = below(seed, workers);
    let further = below(next(seed), workers - 1);
    event(kind, w, (w % 8 + further % 8 + 1) % workers)
}

// Draws the bytes of a schedule.
pub fn draw(schedule: &mut [u8], mixture: u16, workers: u16, seed: u64) {
    let mut pen = Pen { seed, round: None };
    for byte in schedule {
        *byte = pen.draw(mixture, workers);
    }
}
