// An answer as one number: code + 256 * value.
#![tactic(auto)]

ghost use Rattle.std.specs.Prelude.{◌≡◌, ◌^◌, ◌<◌};
ghost use Rattle.answer.specs.Answers.{refused, carried};
ghost use Rattle.answer.specs.Located as Locate;
ghost use Rattle.journal.specs.StatusAnswer as Tell;
ghost use Rattle.recovery.specs.RebuildAnswer as Rebuild;
ghost use Rattle.answer.specs.Cases.{of_step, of_drive, of_place};
ghost use Rattle.journal.specs.StateNumbers.{of_status};
ghost use Rattle.recovery.specs.Results.{of_rebuild};
ghost use Rattle.numbering.specs.Numbering.{coded_answer, coded_place, coded_status, coded_rebuild};
ghost use Rattle.numbering.specs.Values.{offset, count, lost};

use answer::{Drive, Refusal, Step};
use journal::GrowthStatus;

// Why a call is refused, by its number.
pub fn code_refused(refusal: u8) -> u64
    ensures answer { result ≡ coded_answer (refused refusal) }
    ensures place { result ≡ coded_place (Locate.Refused refusal) }
    ensures status { result ≡ coded_status (Tell.Refused refusal) }
    ensures rebuild { result ≡ coded_rebuild (Rebuild.Refused refusal) }
{
    refusal as u64
}

// The state of a growth, by its number, and a count.
pub fn code_state(state: u8, count: usize) -> u64
    requires { count < 2 ^ 32 }
    ensures { result ≡ coded_status (Tell.State state count) }
{
    40 + (state as u64) + 256 * (count as u64)
}

// A function for each answer: `From` for `u64` cannot be written here, since neither type is of this crate.
pub fn code_step(answer: Result<Step, Refusal>) -> u64
    ensures { result ≡ coded_answer (of_step answer) }
{
    match answer {
        Ok(Step::Done) => 0,
        Ok(Step::Already) => 32,
        Err(refusal) => code_refused(refusal.number()),
    }
}

pub fn code_drive(answer: Result<Drive, Refusal>) -> u64
    requires { carried (of_drive answer) < 2 ^ 32 }
    ensures { result ≡ coded_answer (of_drive answer) }
{
    match answer {
        Ok(Drive::Spent(accepted)) => 33 + 256 * (accepted as u64),
        Ok(Drive::Finished(accepted)) => 34 + 256 * (accepted as u64),
        Err(refusal) => code_refused(refusal.number()),
    }
}

pub fn code_place(answer: Result<usize, Refusal>) -> u64
    requires { offset (of_place answer) < 2 ^ 32 }
    ensures { result ≡ coded_place (of_place answer) }
{
    match answer {
        Ok(offset) => 256 * (offset as u64),
        Err(refusal) => code_refused(refusal.number()),
    }
}

pub fn code_status(answer: Result<GrowthStatus, Refusal>) -> u64
    requires { count (of_status answer) < 2 ^ 32 }
    ensures { result ≡ coded_status (of_status answer) }
{
    match answer {
        Ok(status) => code_state(status.state.number(), status.count),
        Err(refusal) => code_refused(refusal.number()),
    }
}

pub fn code_rebuild(answer: Result<usize, Refusal>) -> u64
    requires { lost (of_rebuild answer) < 2 ^ 32 }
    ensures { result ≡ coded_rebuild (of_rebuild answer) }
{
    match answer {
        Ok(lost) => 256 * (lost as u64),
        Err(refusal) => code_refused(refusal.number()),
    }
}
