// The refusals of deliver.
ghost use Rattle.std.specs.Prelude.{◌≡◌, ◌&&◌, not, ◌<◌};
ghost use Rattle.answer.specs.Numbers.{refusal_number};
ghost use Rattle.wire.specs.Forms.{is_message};
ghost use Rattle.wire.specs.Headers.{transfer_of};
ghost use Rattle.growth.specs.Deliver.{room_for};
ghost use Rattle.deliver.specs.Arrival.{arrival_refusal, message_refusal};

use answer::Refusal;
use counts::all_transfers;
use journal::headers::{JournalHeader, check_header, count_of, number_of};
use layout::Layout;
use records::marks::has_bit;
use records::touched::accepted_ok;
use wire::forms::{for_another_node, is_message, of_another_growth};
use wire::{Header, transfer_of};

// The touched word is as it should be, and the count is below its total if the transfer's mark is missing.
fn room_for(z: Layout, h: JournalHeader, word: u32, e: usize) -> bool
    requires { e < 32 }
    ensures { result ≡ room_for z.shape h word e }
{
    accepted_ok(z, word) && (has_bit(word, e as u32) || count_of(h) < all_transfers(z))
}

// A malformed message touches no word, so none is damaged.
fn damaged_word(z: Layout, h: JournalHeader, word: u32, formed: bool, m: Header) -> bool
    requires formed_value { formed ≡ is_message z.shape m }
    ensures { result ≡ (is_message z.shape m && not (room_for z.shape h word (transfer_of m))) }
{
    formed && !room_for(z, h, word, transfer_of(m))
}

// Where shape and lengths are right: header, word, state, node, and the message's four words.
fn check_arrival(
    z: Layout,
    h: JournalHeader,
    word: u32,
    node: usize,
    m: Header,
) -> Result<(), Refusal>
    ensures { refusal_number result ≡ arrival_refusal z.shape h word node m }
{
    let state = check_header(z, h)?;
    let formed = is_message(z, m);
    if damaged_word(z, h, word, formed, m) {
        return Err(Refusal::DamagedBook);
    }
    state.check_open()?;
    if node >= z.shape.n + z.shape.s {
        return Err(Refusal::OutOfRange);
    }
    if !formed || for_another_node(z, node, m) {
        return Err(Refusal::Malformed);
    }
    if of_another_growth(number_of(h), m) {
        return Err(Refusal::OtherGrowth);
    }
    Ok(())
}

// What remains where shape, area and journal, or a node's own part of the area, are right: the other two lengths first. `word` is the
// one that is touched, kind 10 of w, and `m` the message's four words.
pub fn check_message(
    z: Layout,
    message_bytes: usize,
    space_bytes: usize,
    h: JournalHeader,
    word: u32,
    node: usize,
    m: Header,
) -> Result<(), Refusal>
    ensures { refusal_number result ≡ message_refusal z.shape message_bytes space_bytes h word node m }
{
    if message_bytes != 16 + z.shape.b || space_bytes != 16 {
        return Err(Refusal::Length);
    }
    check_arrival(z, h, word, node, m)
}
