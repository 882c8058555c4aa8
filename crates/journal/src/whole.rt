// The test of the whole journal, in one pass over its words.
ghost use Rattle.std.specs.Prelude.{◌≡◌, length, IfOk};
ghost use Rattle.base.specs.Tests.{if};
ghost use Rattle.answer.specs.Numbers.{refusal_number};
ghost use Rattle.journal.specs.Journal.{journal_length};
ghost use Rattle.journal.specs.Whole.{whole_ok};
ghost use Rattle.journal.specs.Found.{Found};

use crate::headers::{check_header, count_of, read_header};
use crate::states::State;
use crate::stripes::read_record;
use answer::Refusal;
use counts::kept_count;
use layout::Layout;
use records::conditions::{accepted_count, record_ok};

// What the pass finds in a good journal: state and count, and whether all stripes are released.
#[derive(Clone, Copy)]
pub struct Book {
    pub state: State,
    pub count: usize,
    pub released: bool,
}

// Tests the header and every pair, the count against the marks, and that a closed growth has all its stripes released.
pub fn examine(z: Layout, journal: &[u32]) -> Result<Book, Refusal>
    requires { length journal.now ≡ journal_length z.shape }
    ensures refusal { refusal_number result ≡ if (whole_ok z.shape journal.now) 0 4 }
    ensures book { IfOk result (Found z.shape journal.now) }
{
    let h = read_header(journal);
    let state = check_header(z, h)?;
    let mut marks = 0;
    let mut released = true;
    for w in 0..kept_count(z) {
        let r = read_record(journal, w);
        if !record_ok(z, r) {
            return Err(Refusal::DamagedBook);
        }
        marks += accepted_count(z, r);
        released = r.is_released() & released;
    }
    let count = count_of(h);
    if count != marks {
        return Err(Refusal::DamagedBook);
    }
    let state_agrees = match state {
        State::Open => true,
        State::Closed => released,
    };
    if !state_agrees {
        return Err(Refusal::DamagedBook);
    }
    Ok(Book {
        state,
        count,
        released,
    })
}
