// How the journal gets the record that a node has marked in a call on its own cells.
ghost use Rattle.std.specs.Prelude.{◌≡◌, ◌+◌, ◌*◌, ◌<◌, length};
ghost use Rattle.answer.specs.Answers.{done, is_done, on_done};
ghost use Rattle.answer.specs.Cases.{of_step};
ghost use Rattle.journal.specs.Journal.{put_record};

use answer::{Refusal, Step};
use journal::stripes::write_record;
use records::StripeRecord;

// Whether a call was done.
pub fn is_done(answer: Result<Step, Refusal>) -> bool
    ensures { result ≡ is_done (of_step answer) }
{
    match answer {
        Ok(Step::Done) => true,
        Ok(Step::Already) => false,
        Err(_) => false,
    }
}

// Writes the record of stripe w back, if the node's call was done, and hands on what it answered.
pub fn keep_step(
    journal: &mut [u32],
    w: usize,
    answer: Result<Step, Refusal>,
    stripe: StripeRecord,
) -> Result<Step, Refusal>
    requires { of_step answer ≡ done → 5 + 2 * w < length journal.old }
    ensures { (result ≡ answer)
        × (journal.new ≡ on_done (of_step answer) (put_record journal.old w stripe) journal.old) }
{
    if is_done(answer) {
        write_record(journal, w, stripe);
    }
    answer
}
