// The refusals of receipt.
ghost use Rattle.std.specs.Prelude.{◌≡◌, IfOk};
ghost use Rattle.answer.specs.Numbers.{refusal_number};
ghost use Rattle.receipt.specs.Return.{return_refusal};
ghost use Rattle.receipt.specs.Own.{journal_refusal, own_refusal};

use answer::Refusal;
use counts::check_shape;
use journal::headers::{JournalHeader, check_header, number_of};
use journal::journal_length;
use layout::{Layout, Shape};
use lent::damaged_word;
use records::marks::has_bit;
use wire::Header;
use wire::forms::{for_another_sender, is_receipt, of_another_growth};

// What remains where shape and lengths are right: header, word, state, node, the receipt's four words, and the stripe's stage. A malformed
// receipt touches no word.
fn check_return(
    z: Layout,
    h: JournalHeader,
    word: u32,
    node: usize,
    m: Header,
) -> Result<(), Refusal>
    ensures { refusal_number result ≡ return_refusal z.shape h word node m }
{
    let state = check_header(z, h)?;
    let formed = is_receipt(z, m);
    if damaged_word(z, formed, word) {
        return Err(Refusal::DamagedBook);
    }
    state.check_open()?;
    if node >= z.shape.n + z.shape.s {
        return Err(Refusal::OutOfRange);
    }
    if !formed {
        return Err(Refusal::Malformed);
    }
    if for_another_sender(z, node, m) {
        return Err(Refusal::Malformed);
    }
    if of_another_growth(number_of(h), m) {
        return Err(Refusal::OtherGrowth);
    }
    if !has_bit(word, 26) {
        return Err(Refusal::NotComputed);
    }
    Ok(())
}

// Of the call over the journal: the shape, and the journal's length.
pub fn check_journal(z: Shape, journal_words: usize) -> Result<Layout, Refusal>
    ensures refusal { refusal_number result ≡ journal_refusal z journal_words }
    ensures layout { IfOk result (λ layout. layout.shape ≡ z) }
{
    let layout = check_shape(z)?;
    if journal_words != journal_length(layout) {
        return Err(Refusal::Length);
    }
    Ok(layout)
}

// Of the node, from the receipt's length, the header, the word that is touched, kind 11 of w, the node and the receipt's four words.
pub fn check_own(
    z: Shape,
    receipt_bytes: usize,
    h: JournalHeader,
    word: u32,
    node: usize,
    m: Header,
) -> Result<(), Refusal>
    ensures { refusal_number result ≡ own_refusal z receipt_bytes h word node m }
{
    let layout = check_shape(z)?;
    if receipt_bytes != 16 {
        return Err(Refusal::Length);
    }
    check_return(layout, h, word, node, m)
}
