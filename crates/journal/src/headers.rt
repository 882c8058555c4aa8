// The first four words of the journal.
ghost use Rattle.std.specs.Prelude.{◌≡◌, ◌<◌, ◌≤◌, length, IfOk};
ghost use Rattle.base.specs.Tests.{if};
ghost use Rattle.answer.specs.Numbers.{refusal_number};
ghost use Rattle.wire.specs.Words.{state_word, count_word};
ghost use Rattle.journal.specs.StateNumbers.{state_number};
ghost use Rattle.journal.specs.Journal.{header_of, put_header, state_of, number_of, count_of, header_ok};

use crate::states::State;
use answer::Refusal;
use layout::Layout;
use wire::words::{growth_word, rest_of, size_word};

// State with the shape's n, k and s; block size; growth number; transfers accepted so far.
#[derive(Clone, Copy, PartialEq, Eq)]
pub struct JournalHeader {
    pub state: u32,
    pub size: u32,
    pub growth: u32,
    pub count: u32,
}

#[tactic(auto, unfolding(crate::specs::Journal::header_of))]
pub fn read_header(journal: &[u32]) -> JournalHeader
    requires { 4 ≤ length journal.now }
    ensures { result ≡ header_of journal.now }
{
    JournalHeader {
        state: journal[0],
        size: journal[1],
        growth: journal[2],
        count: journal[3],
    }
}

#[tactic(auto, unfolding(crate::specs::Journal::put_header))]
pub fn write_header(journal: &mut [u32], h: JournalHeader)
    requires { 4 ≤ length journal.old }
    ensures { journal.new ≡ put_header journal.old h }
{
    journal[0] = h.state;
    journal[1] = h.size;
    journal[2] = h.growth;
    journal[3] = h.count;
}

// The number of the state that the header tells.
#[tactic(auto, unfolding(crate::specs::Journal::state_of))]
pub fn state_of(h: JournalHeader) -> u8
    ensures { (result ≡ state_of h) × (result < 16) }
{
    (h.state / 16777216 % 16) as u8
}

// The growth number.
#[tactic(auto, unfolding(crate::specs::Journal::number_of))]
pub fn number_of(h: JournalHeader) -> usize
    ensures { (result ≡ number_of h) × (result < 268435456) }
{
    rest_of(h.growth)
}

// The count of transfers accepted so far.
#[tactic(auto, unfolding(crate::specs::Journal::count_of))]
pub fn count_of(h: JournalHeader) -> usize
    ensures { (result ≡ count_of h) × (result < 268435456) }
{
    rest_of(h.count)
}

// Kind 7.
#[tactic(auto, unfolding(wire::specs::Words::state_word))]
pub fn state_word(state: State, z: Layout) -> u32
    ensures { result ≡ state_word (state_number state) z.shape }
{
    (1879048192
        + state.number() as usize * 16777216
        + z.shape.n * 65536
        + z.shape.k * 256
        + z.shape.s) as u32
}

// Kind 12.
#[tactic(auto, unfolding(wire::specs::Words::count_word))]
pub fn count_word(count: usize) -> u32
    requires { count < 268435456 }
    ensures { result ≡ count_word count }
{
    (3221225472 + count) as u32
}

// The state of a header of this shape; any other header is damaged.
pub fn check_header(z: Layout, h: JournalHeader) -> Result<State, Refusal>
    ensures refusal { refusal_number result ≡ if (header_ok z.shape h) 0 4 }
    ensures state { IfOk result (λ state. state_number state ≡ state_of h) }
{
    let state = State::try_from(state_of(h))?;
    let own = JournalHeader {
        state: state_word(state, z),
        size: size_word(z),
        growth: growth_word(number_of(h)),
        count: count_word(count_of(h)),
    };
    if h == own {
        Ok(state)
    } else {
        Err(Refusal::DamagedBook)
    }
}
