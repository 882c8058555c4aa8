// Send as a single node runs it, from its own cells alone: the sender of the stripe's transfers.
ghost use Rattle.std.specs.Prelude.{◌≡◌, ◌+◌, ◌*◌, ◌<◌, length, IfOk};
ghost use Rattle.answer.specs.Cases.{of_step};
ghost use Rattle.answer.specs.Numbers.{refusal_number};
ghost use Rattle.area.specs.Area.{put};
ghost use Rattle.layout.specs.Counts.{kept, stripes, transfers};
ghost use Rattle.wire.specs.Headers.{message};
ghost use Rattle.growth.specs.Send.{SendOutcome};
ghost use Rattle.send.specs.Own.{own_refusal, own_payload, send_at_node};

use answer::{Refusal, Step};
use counts::transfer_count;
use journal::headers::{JournalHeader, number_of};
use layout::{Layout, Shape};
use lent::{check_sender, check_stripe};
use parts::new_offsets;
use places::kinds::Kind;
use places::transfers::kind_of;
use records::StripeRecord;
use records::marks::has_bit;
use sources::source_slot;

// From the lengths of part and space, the header, the word that is touched, kind 11 of w, and the node's number.
fn check_own(
    z: Shape,
    own_bytes: usize,
    space_bytes: usize,
    h: JournalHeader,
    word: u32,
    node: usize,
    w: usize,
    e: usize,
) -> Result<Layout, Refusal>
    ensures refusal { refusal_number result ≡ own_refusal z own_bytes space_bytes h word node w e }
    ensures layout { IfOk result (λ layout. layout.shape ≡ z) }
{
    let layout = check_sender(z, own_bytes)?;
    if space_bytes != 16 + z.b {
        return Err(Refusal::Length);
    }
    check_stripe(layout, h, word, node, w)?;
    if e >= transfer_count(layout) {
        return Err(Refusal::OutOfRange);
    }
    if !has_bit(word, 26) {
        return Err(Refusal::NotComputed);
    }
    if has_bit(word, 27) {
        return Err(Refusal::Released);
    }
    Ok(layout)
}

// The block of transfer e of w, from the sender's own part of the area, behind the message's words.
fn write_payload(z: Layout, own: &[u8], w: usize, e: usize, space: &mut [u8])
    requires own_len { (length own.now ≡ stripes z.shape * z.shape.b) × (w < kept z.shape) × (e < transfers z.shape)
        × (length space.old ≡ 16 + z.shape.b) }
    ensures { space.new ≡ put space.old 16 (own_payload z.shape own.now w e) }
{
    let Shape { n, k, s, b } = z.shape;
    match kind_of(z, w, e) {
        Kind::Delta => code::write_delta(space, 16, own, &new_offsets(z, w), k, s, e + 1, b),
        Kind::ParityRow => area::copy(space, 16, own, w * b, b),
        _ => area::copy(space, 16, own, source_slot(z, w, e - (n - k - 1)) * b, b),
    }
}

// The whole message of transfer e of w.
fn write_own_message(z: Layout, own: &[u8], number: usize, w: usize, e: usize, space: &mut [u8])
    requires own_len { (length own.now ≡ stripes z.shape * z.shape.b) × (number < 268435456) × (w < kept z.shape) × (e < transfers z.shape)
        × (length space.old ≡ 16 + z.shape.b) }
    ensures { space.new ≡ message z.shape w e number (own_payload z.shape own.now w e) }
{
    write_payload(z, own, w, e, space);
    wire::write_header(space, 0, wire::message_header(z, w, e, number));
}

// The node reads its own part of the area. It has the header, the stripe's record, of which it reads its own word, kind 11, its own
// number, and a space for the message.
pub fn send_at_node(
    z: Shape,
    own: &[u8],
    h: JournalHeader,
    stripe: StripeRecord,
    node: usize,
    w: usize,
    e: usize,
    space: &mut [u8],
) -> Result<Step, Refusal>
    ensures { ◌≡◌ {A = SendOutcome} (record { answer = of_step result; space = space.new })
        (send_at_node z own.now h stripe node w e space.old) }
{
    let layout = check_own(z, own.len(), space.len(), h, stripe.progress, node, w, e)?;
    write_own_message(layout, own, number_of(h), w, e, space);
    Ok(Step::Done)
}
