// The engine of a search: the one loop that plays a schedule, event after event. The opening that it
// starts from is crate `opening`, what the workers do at an event is crate `workers`. `run` is an
// inner step: it may assume what its caller proves.
#![tactic(auto)]

ghost use Rattle.std.specs.Prelude.{◌≡◌};
ghost use Rattle.engine.specs.Runs.{number_of};

pub mod run;

// How a run ends: with the finishing event, or with the schedule spent before it.
#[derive(Clone, Copy, Debug, PartialEq, Eq)]
pub enum Ending {
    Finished,
    Spent,
}

impl Ending {
    // Document 01's number.
    pub fn number(self) -> usize
        ensures { result ≡ number_of self }
    {
        match self {
            Ending::Finished => numbers::SUCCESS,
            Ending::Spent => numbers::UNFINISHED,
        }
    }
}

// "The run's answer: number, events used, effective events, d."
#[derive(Clone, Copy, Debug, PartialEq, Eq)]
pub struct Answer {
    pub ending: Ending,
    pub used: usize,
    pub effective: usize,
    pub layer: usize,
}
