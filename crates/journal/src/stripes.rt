// Where the journal has the record of each stripe.
ghost use Rattle.std.specs.Prelude.{◌≡◌, ◌+◌, ◌*◌, ◌<◌, length};
ghost use Rattle.journal.specs.Journal.{record_at, put_record};

use records::StripeRecord;

// The record of stripe w.
#[tactic(auto, unfolding(crate::specs::Journal::record_at))]
pub fn read_record(journal: &[u32], w: usize) -> StripeRecord
    requires { 5 + 2 * w < length journal.now }
    ensures { result ≡ record_at journal.now w }
{
    StripeRecord {
        accepted: journal[4 + 2 * w],
        progress: journal[5 + 2 * w],
    }
}

// Writes the record of stripe w.
#[tactic(auto, unfolding(crate::specs::Journal::put_record))]
pub fn write_record(journal: &mut [u32], w: usize, r: StripeRecord)
    requires { 5 + 2 * w < length journal.old }
    ensures { journal.new ≡ put_record journal.old w r }
{
    journal[4 + 2 * w] = r.accepted;
    journal[5 + 2 * w] = r.progress;
}
