// A count of the cases of a group, and the line that a program writes for it.
ghost use Rattle.std.specs.Iterator.{IsFinite};

use std::io;

// How many cases were tried, and how many of them went wrong.
#[derive(Clone, Copy)]
pub struct Tally {
    pub cases: u64,
    pub wrong: u64,
}

impl Tally {
    pub fn new() -> Self {
        Tally { cases: 0, wrong: 0 }
    }

    // One case more.
    pub fn with(self, right: bool) -> Self {
        self.and(Tally {
            cases: 1,
            wrong: u64::from(!right),
        })
    }

    // The cases of two groups in one.
    pub fn and(self, other: Tally) -> Self {
        Tally {
            cases: self.cases.wrapping_add(other.cases),
            wrong: self.wrong.wrapping_add(other.wrong),
        }
    }

    // The group's line: its name, then "N cases M wrong".
    pub fn print(self, rt: &impl Print, name: &str) -> io::Result<()> {
        let Tally { cases, wrong } = self;
        println!(rt; "{name} {cases} cases {wrong} wrong")
    }
}

// All cases of a group, one after the other.
pub fn all<I: Iterator, F: Fn(I::Item) -> bool>(cases: I, is_right: F) -> Tally
    requires can { I.can_next cases }
    requires ends { IsFinite (I.remaining cases) }
    requires calls { F.IsAlwaysCallable is_right }
{
    let mut tally = Tally::new();
    for case in cases {
        tally = tally.with(is_right(case));
    }
    tally
}
