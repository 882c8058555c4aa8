// The words of a journal or a message, however short it is: a word or byte that is not there is 0, as in the definitions. So a
// call can look before it has tested a length, and its refusals are given these words by value.
ghost use Rattle.std.specs.Prelude.{◌≡◌, ◌<◌, ◌≤◌, get_or, length};
ghost use Rattle.wire.specs.Words.{word_at};
ghost use Rattle.wire.specs.Headers.{header_at};
ghost use Rattle.journal.specs.Journal.{header_of, record_at};

use journal::headers::JournalHeader;
use records::StripeRecord;
use wire::Header;

fn word_or_zero(journal: &[u32], at: usize) -> u32
    ensures { result ≡ get_or journal.now at 0 }
{
    if at < journal.len() { journal[at] } else { 0 }
}

// The journal's first four words.
#[tactic(auto, unfolding(journal::specs::Journal::header_of))]
pub fn header_in(journal: &[u32]) -> JournalHeader
    ensures { result ≡ header_of journal.now }
{
    JournalHeader {
        state: word_or_zero(journal, 0),
        size: word_or_zero(journal, 1),
        growth: word_or_zero(journal, 2),
        count: word_or_zero(journal, 3),
    }
}

// The pair of words of stripe w, whatever number w is.
#[tactic(auto, using(crate::proofs::Past::record_past), unfolding(journal::specs::Journal::record_at))]
pub fn record_in(journal: &[u32], w: usize) -> StripeRecord
    ensures { result ≡ record_at journal.now w }
{
    // Past the end, and the sums below could wrap.
    if w >= journal.len() {
        return StripeRecord {
            accepted: 0,
            progress: 0,
        };
    }
    StripeRecord {
        accepted: word_or_zero(journal, 4 + 2 * w),
        progress: word_or_zero(journal, 5 + 2 * w),
    }
}

fn byte_or_zero(bytes: &[u8], at: usize) -> u32
    ensures { (result ≡ get_or bytes.now at 0) × (result < 256) }
{
    if at < bytes.len() {
        bytes[at] as u32
    } else {
        0
    }
}

fn byte_at(bytes: &[u8], at: usize) -> u32
    requires { at < length bytes.now }
    ensures { (result ≡ get_or bytes.now at 0) × (result < 256) }
{
    bytes[at] as u32
}

// A word of which some bytes may be missing.
#[tactic(auto, unfolding(wire::specs::Words::word_at))]
fn word_in_part(bytes: &[u8], at: usize) -> u32
    requires { at ≤ 12 }
    ensures { result ≡ word_at bytes.now at }
{
    byte_or_zero(bytes, at)
        + byte_or_zero(bytes, at + 1) * 256
        + byte_or_zero(bytes, at + 2) * 65536
        + byte_or_zero(bytes, at + 3) * 16777216
}

// A word. Where all four bytes are there, the compiler reads them together.
#[tactic(auto, unfolding(wire::specs::Words::word_at))]
fn word_in(bytes: &[u8], at: usize) -> u32
    requires { at ≤ 12 }
    ensures { result ≡ word_at bytes.now at }
{
    if bytes.len() < 16 {
        return word_in_part(bytes, at);
    }
    byte_at(bytes, at)
        + byte_at(bytes, at + 1) * 256
        + byte_at(bytes, at + 2) * 65536
        + byte_at(bytes, at + 3) * 16777216
}

// The four words that a message or a receipt starts with.
#[tactic(auto, unfolding(wire::specs::Headers::header_at))]
pub fn words_in(bytes: &[u8]) -> Header
    ensures { result ≡ header_at bytes.now 0 }
{
    Header {
        stripe: word_in(bytes, 0),
        route: word_in(bytes, 4),
        growth: word_in(bytes, 8),
        size: word_in(bytes, 12),
    }
}
