// The journal that begin writes.
ghost use Rattle.std.specs.Prelude.{◌≡◌, ◌<◌, length};
ghost use Rattle.journal.specs.Journal.{journal_length};
ghost use Rattle.journal.specs.Fresh.{fresh_header, fresh_record, fresh_journal};

use crate::headers::{JournalHeader, count_word, state_word, write_header};
use crate::states::State;
use crate::stripes::write_record;
use counts::kept_count;
use layout::Layout;
use records::StripeRecord;
use wire::words::{growth_word, size_word};

fn fresh_header(z: Layout, number: usize) -> JournalHeader
    requires number_bound { number < 268435456 }
    ensures { result ≡ fresh_header z.shape number }
{
    JournalHeader {
        state: state_word(State::Open, z),
        size: size_word(z),
        growth: growth_word(number),
        count: count_word(0),
    }
}

// Kinds 10 and 11 with no bit set.
pub fn fresh_record() -> StripeRecord
    ensures { result ≡ fresh_record }
{
    StripeRecord {
        accepted: 2684354560,
        progress: 2952790016,
    }
}

// Writes the journal of a growth that has just begun.
pub fn write_fresh(journal: &mut [u32], z: Layout, number: usize)
    requires journal_len { length journal.old ≡ journal_length z.shape }
    requires number_bound { number < 268435456 }
    ensures { journal.new ≡ fresh_journal z.shape number }
{
    write_header(journal, fresh_header(z, number));
    for w in 0..kept_count(z) {
        write_record(journal, w, fresh_record());
    }
}
