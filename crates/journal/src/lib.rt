// The journal of a growth, and document 01's call status.
#![tactic(auto)]

pub mod fresh;
pub mod headers;
pub mod states;
pub mod stripes;
pub mod whole;

ghost use Rattle.std.specs.Prelude.{◌≡◌, ◌≤◌, IfOk};
ghost use Rattle.answer.specs.Numbers.{refusal_number};
ghost use Rattle.journal.specs.Journal as Journal;
ghost use Rattle.journal.specs.Found.{Found};
ghost use Rattle.journal.specs.Status.{status_refusal, status};
ghost use Rattle.journal.specs.StateNumbers.{of_status};

use answer::Refusal;
use counts::{check_shape, kept_count};
use layout::{Layout, Shape};
use states::State;
use whole::{Book, examine};

// What status tells: the state, and how many transfers were accepted.
#[derive(Clone, Copy, Debug, PartialEq, Eq)]
pub struct GrowthStatus {
    pub state: State,
    pub count: usize,
}

// How many words the journal has.
#[tactic(auto, unfolding(crate::specs::Journal::journal_length))]
pub fn journal_length(z: Layout) -> usize
    ensures { (result ≡ Journal.journal_length z.shape) × (result ≤ 13684) }
{
    4 + 2 * kept_count(z)
}

// The refusals of status.
fn check_status(z: Shape, journal: &[u32]) -> Result<Book, Refusal>
    ensures refusal { refusal_number result ≡ status_refusal z journal.now }
    ensures book { IfOk result (Found z journal.now) }
{
    let layout = check_shape(z)?;
    if journal.len() != journal_length(layout) {
        return Err(Refusal::Length);
    }
    examine(layout, journal)
}

// Tells the state of a growth and how many transfers were accepted, after a test of the whole journal.
pub fn status(z: Shape, journal: &[u32]) -> Result<GrowthStatus, Refusal>
    ensures { of_status result ≡ status z journal.now }
{
    // The refusal has an arm of its own, so that a must-fail edit can put another in its place.
    match check_status(z, journal) {
        Ok(book) => Ok(GrowthStatus {
            state: book.state,
            count: book.count,
        }),
        Err(refusal) => Err(refusal),
    }
}
