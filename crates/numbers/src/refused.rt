// Why a call turns its input down, and document 01's number for it.
ghost use Rattle.std.specs.Prelude.{◌≡◌};
ghost use Rattle.numbers.specs.Told.{number_of, told};

// "Turned down by the input", 1 to 12, and "turned down by the state", 20, each with its number.
#[derive(Clone, Copy, Debug, PartialEq, Eq)]
pub enum Refused {
    BadLength = 1,
    BadSize = 2,
    BadTarget = 3,
    BadIndex = 4,
    Repeated = 5,
    Unreached = 6,
    BadSource = 7,
    BadWorkers = 8,
    BadSchedule = 9,
    BadResult = 10,
    BadRows = 11,
    BadSleepers = 12,
    ShortList = 20,
}

impl Refused {
    // Document 01's number.
    pub fn number(self) -> usize
        ensures { result ≡ number_of self }
    {
        self as usize
    }
}

// The number of an answer: 0 where the call turned nothing down.
pub fn told<T>(answer: &Result<T, Refused>) -> usize
    ensures { result ≡ told answer.now }
{
    match answer {
        Ok(_) => crate::SUCCESS,
        Err(refused) => refused.number(),
    }
}
