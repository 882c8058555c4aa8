// What the program prints, and answers as numbers.
use crate::chance::sum_of;
use answer::{Drive, Refusal, Step};
use journal::GrowthStatus;
use layout::Shape;
use std::{fmt, io};

// What a call answered.
#[derive(Clone, Copy)]
pub enum Answer {
    Step(Step),
    Drive(Drive),
    Refused(Refusal),
}

// Of a step's result.
impl From<Result<Step, Refusal>> for Answer {
    fn from(answer: Result<Step, Refusal>) -> Answer {
        match answer {
            Ok(step) => Answer::Step(step),
            Err(refusal) => Answer::Refused(refusal),
        }
    }
}

// Of a drive's result.
impl From<Result<Drive, Refusal>> for Answer {
    fn from(answer: Result<Drive, Refusal>) -> Answer {
        match answer {
            Ok(drive) => Answer::Drive(drive),
            Err(refusal) => Answer::Refused(refusal),
        }
    }
}

impl Answer {
    // The number that goes into the sums: 0 done, 32 already, 33 spent, 34 finished, else the refusal; and 256 times the value.
    pub fn number(self) -> u64 {
        match self {
            Answer::Step(Step::Done) => 0,
            Answer::Step(Step::Already) => 32,
            Answer::Drive(Drive::Spent(accepted)) => 33 + accepted as u64 % 65536 * 256,
            Answer::Drive(Drive::Finished(accepted)) => 34 + accepted as u64 % 65536 * 256,
            Answer::Refused(refusal) => refusal.number() as u64,
        }
    }
}

// In words.
impl fmt::Display for Answer {
    fn fmt<W: fmt::Write>(&self, f: &mut fmt::Formatter<W>) -> fmt::Result {
        match *self {
            Answer::Step(Step::Done) => write!(f, "done"),
            Answer::Step(Step::Already) => write!(f, "already"),
            Answer::Drive(Drive::Spent(accepted)) => write!(f, "spent {accepted}"),
            Answer::Drive(Drive::Finished(accepted)) => write!(f, "finished {accepted}"),
            Answer::Refused(refusal) => write!(f, "refused {}", refusal.number()),
        }
    }
}

// Prints what status answers.
pub fn print_status(rt: &impl Print, z: Shape, journal: &[u32]) -> io::Result<()> {
    match journal::status(z, journal) {
        Ok(GrowthStatus { state, count }) => {
            println!(rt; "status {} count {count}", state.number())
        }
        Err(refusal) => println!(rt; "status refused {}", refusal.number()),
    }
}

// Prints the sums of the area and of the journal.
pub fn print_sums(rt: &impl Print, area: &[u8], journal: &[u32]) -> io::Result<()> {
    println!(rt; "area {} journal {}", sum_of(area), sum_of(journal))
}
