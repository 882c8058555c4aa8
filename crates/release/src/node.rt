// Release as a single node runs it, on its own cells alone: the node that has the stripe's new blocks.
ghost use Rattle.std.specs.Prelude.{◌≡◌, true, ◌*◌, ◌<◌, length, IfOk};
ghost use Rattle.base.specs.Tests.{every};
ghost use Rattle.answer.specs.Cases.{of_step};
ghost use Rattle.answer.specs.Numbers.{refusal_number};
ghost use Rattle.layout.specs.Counts.{kept, stripes, transfers};
ghost use Rattle.wire.specs.Words.{bit};
ghost use Rattle.records.specs.Conditions.{progress_ok};
ghost use Rattle.parts.specs.AtNode.{NodeOutcome};
ghost use Rattle.release.specs.Own.{own_refusal, own_moved, own_zeroed, own_released, release_at_node};

use answer::{Refusal, Step};
use journal::headers::JournalHeader;
use layout::{Layout, Shape};
use lent::{check_sender, check_stripe};
use places::{is_swapped, swap_index};
use records::StripeRecord;
use records::marks::has_bit;
use records::touched::mark_room;
use sources::source_slot;

// Whether every transfer of a stripe is receipted: the bits of all of them are set in its word.
fn all_receipted(z: Layout, word: u32) -> bool
    requires word_value { progress_ok z.shape word ≡ true }
    ensures { result ≡ every (transfers z.shape) (bit word) }
{
    word % 67108864 + 1 == mark_room(z)
}

// From the length of the node's part, the header, the word that is touched, kind 11 of w, and the node's number.
fn check_own(
    z: Shape,
    own_bytes: usize,
    h: JournalHeader,
    word: u32,
    node: usize,
    w: usize,
) -> Result<Layout, Refusal>
    ensures refusal { refusal_number result ≡ own_refusal z own_bytes h word node w }
    ensures layout { IfOk result (λ layout. layout.shape ≡ z) }
{
    let layout = check_sender(z, own_bytes)?;
    check_stripe(layout, h, word, node, w)?;
    if !has_bit(word, 26) {
        return Err(Refusal::NotComputed);
    }
    if !all_receipted(layout, word) {
        return Err(Refusal::Unfinished);
    }
    Ok(layout)
}

// The swap's local move: of a swapped stripe, the new block that stays on its node goes into slot w.
fn move_own(z: Layout, own: &mut [u8], w: usize)
    requires own_len { (length own.old ≡ stripes z.shape * z.shape.b) × (w < kept z.shape) }
    ensures { own.new ≡ own_moved z.shape own.old w }
{
    if is_swapped(z, w) {
        let from = source_slot(z, w, swap_index(z, w));
        area::copy_within(own, w * z.shape.b, from * z.shape.b, z.shape.b);
    }
}

// Zeroes the first places of the new blocks of w.
fn zero_own(z: Layout, own: &mut [u8], w: usize)
    requires own_len { (length own.old ≡ stripes z.shape * z.shape.b) × (w < kept z.shape) }
    ensures { own.new ≡ own_zeroed z.shape w own.old }
{
    let Shape { s, b, .. } = z.shape;
    for t in 0..s {
        area::zero(own, source_slot(z, w, t) * b, b);
    }
}

// The move comes first: it reads one of the places that are then zeroed.
fn release_own(z: Layout, own: &mut [u8], w: usize)
    requires own_len { (length own.old ≡ stripes z.shape * z.shape.b) × (w < kept z.shape) }
    ensures { own.new ≡ own_released z.shape own.old w }
{
    move_own(z, own, w);
    zero_own(z, own, w);
}

// The node works on its own part of the area. It has the header, the stripe's record, of which it reads and marks its own word, kind 11,
// and its own number.
pub fn release_at_node(
    z: Shape,
    own: &mut [u8],
    h: JournalHeader,
    stripe: &mut StripeRecord,
    node: usize,
    w: usize,
) -> Result<Step, Refusal>
    ensures { ◌≡◌ {A = NodeOutcome} (record { answer = of_step result; own = own.new; stripe = stripe.new })
        (release_at_node z own.old h stripe.old node w) }
{
    let layout = check_own(z, own.len(), h, stripe.progress, node, w)?;
    if stripe.is_released() {
        return Ok(Step::Already);
    }
    release_own(layout, own, w);
    *stripe = stripe.release();
    Ok(Step::Done)
}
