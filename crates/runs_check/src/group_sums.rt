// What a group counts.
use testkit::group::Tally;

// What a call had to answer, and whether it answered and left that.
#[derive(Clone, Copy)]
pub struct Outcome {
    pub number: usize,
    pub right: bool,
}

// The tally, and how many of the cases had to give 10.
#[derive(Clone, Copy)]
pub struct Sums {
    pub tally: Tally,
    pub tens: u64,
}

impl Sums {
    // The sums of no cases.
    pub fn new() -> Self {
        Sums {
            tally: Tally::new(),
            tens: 0,
        }
    }

    // One case more.
    pub fn with(self, outcome: Outcome) -> Self {
        let is_ten = outcome.number == 10;
        Sums {
            tally: self.tally.with(outcome.right),
            tens: self.tens.wrapping_add(u64::from(is_ten)),
        }
    }

    // The cases of both.
    pub fn and(self, other: Sums) -> Self {
        Sums {
            tally: self.tally.and(other.tally),
            tens: self.tens.wrapping_add(other.tens),
        }
    }
}
