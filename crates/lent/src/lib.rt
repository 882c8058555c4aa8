// What several calls test first, in document 01's order; what they look at before they have tested anything (`reading`); and how the
// journal gets the record that a single node has marked (`steps`).
#![tactic(auto)]

pub mod reading;
pub mod steps;

ghost use Rattle.std.specs.Prelude.{◌≡◌, ◌&&◌, not, length, IfOk};
ghost use Rattle.records.specs.Conditions.{progress_ok};
ghost use Rattle.answer.specs.Numbers.{refusal_number};
ghost use Rattle.journal.specs.Journal as Journal;
ghost use Rattle.journal.specs.Found.{Found};
ghost use Rattle.lent.specs.Checks.{store_refusal, sender_refusal, stripe_refusal, whole_refusal};

use answer::Refusal;
use counts::addresses::area_length;
use counts::{check_shape, kept_count, stripe_count};
use journal::headers::{JournalHeader, check_header};
use journal::journal_length;
use journal::whole::{Book, examine};
use layout::{Layout, Shape};
use places::transfers::sender_of;
use records::touched::progress_ok;

// A call on the whole area and the journal: the shape and the two lengths.
pub fn check_store(z: Shape, area_bytes: usize, journal_words: usize) -> Result<Layout, Refusal>
    ensures refusal { refusal_number result ≡ store_refusal z area_bytes journal_words }
    ensures layout { IfOk result (λ layout. layout.shape ≡ z) }
{
    let layout = check_shape(z)?;
    if area_bytes != area_length(layout) || journal_words != journal_length(layout) {
        return Err(Refusal::Length);
    }
    Ok(layout)
}

// Of a sender that has its own cells alone: the shape, and the length of its part. It is an old node, so the part has G slots.
pub fn check_sender(z: Shape, own_bytes: usize) -> Result<Layout, Refusal>
    ensures refusal { refusal_number result ≡ sender_refusal z own_bytes }
    ensures layout { IfOk result (λ layout. layout.shape ≡ z) }
{
    let layout = check_shape(z)?;
    if own_bytes != stripe_count(layout) * z.b {
        return Err(Refusal::Length);
    }
    Ok(layout)
}

// Whether a word of kind 11 is damaged. One that a call does not touch is not, and its value does not count.
pub fn damaged_word(z: Layout, touched: bool, word: u32) -> bool
    ensures { result ≡ (touched && not (progress_ok z.shape word)) }
{
    touched && !progress_ok(z, word)
}

// Of a node's call on a kept stripe that touches its word of kind 11: header, word, state, the stripe's range, and that it is the node's.
// A stripe out of range touches no word.
pub fn check_stripe(
    z: Layout,
    h: JournalHeader,
    word: u32,
    node: usize,
    w: usize,
) -> Result<(), Refusal>
    ensures { refusal_number result ≡ stripe_refusal z.shape h word node w }
{
    let state = check_header(z, h)?;
    let kept = kept_count(z);
    if damaged_word(z, w < kept, word) {
        return Err(Refusal::DamagedBook);
    }
    state.check_open()?;
    if w >= kept || node != sender_of(z, w) {
        return Err(Refusal::OutOfRange);
    }
    Ok(())
}

// Of a call that tests the whole journal: what the test finds, and the state.
pub fn check_whole(z: Layout, journal: &[u32]) -> Result<Book, Refusal>
    requires { length journal.now ≡ Journal.journal_length z.shape }
    ensures refusal { refusal_number result ≡ whole_refusal z.shape journal.now }
    ensures book { IfOk result (Found z.shape journal.now) }
{
    let book = match examine(z, journal) {
        Ok(book) => book,
        Err(_) => return Err(Refusal::DamagedBook),
    };
    book.state.check_open()?;
    Ok(book)
}
