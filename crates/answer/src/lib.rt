// What the calls answer: a `Result` of what was done, or why the call is refused.
#![tactic(auto)]

ghost use Rattle.std.specs.Prelude.{◌≡◌};
ghost use Rattle.answer.specs.Numbers.{number};

// Why a call is refused. The numbers are document 01's, which C gets.
#[derive(Clone, Copy, Debug, PartialEq, Eq)]
pub enum Refusal {
    Shape = 1,
    TooManyNewNodes = 2,
    Length = 3,
    DamagedBook = 4,
    OutOfRange = 5,
    NotComputed = 6,
    Released = 7,
    Unfinished = 8,
    Malformed = 9,
    OtherGrowth = 10,
    Ambiguous = 11,
    Inconsistent = 12,
    Closed = 13,
}

impl Refusal {
    // Document 01's number.
    pub fn number(self) -> u8
        ensures { result ≡ number self }
    {
        self as u8
    }
}

// Of encode, begin and the steps of a growth.
#[derive(Clone, Copy, Debug, PartialEq, Eq)]
pub enum Step {
    Done,
    Already,
}

// Of drive, with the number of transfers that it newly accepted.
#[derive(Clone, Copy, Debug, PartialEq, Eq)]
pub enum Drive {
    Spent(usize),
    Finished(usize),
}
