// Deliver as a single node runs it, on its own cells alone: the receiver of the transfer.
ghost use Rattle.std.specs.Prelude.{◌≡◌, ◌+◌, ◌*◌, ◌<◌, ◌≤◌, length, IfOk};
ghost use Rattle.answer.specs.Cases.{of_step};
ghost use Rattle.answer.specs.Numbers.{refusal_number};
ghost use Rattle.layout.specs.Counts.{kept};
ghost use Rattle.wire.specs.Headers.{header_at};
ghost use Rattle.deliver.specs.Own.{receiver_refusal, own_refusal, own_delivered, AcceptedAtNode, accept_at_node, DeliveredAtNode};
ghost use Rattle.deliver.specs.Own.{deliver_at_node};

use crate::refusals::check_message;
use crate::{counted_up, write_receipt};
use answer::{Refusal, Step};
use counts::addresses::node_bytes;
use counts::check_shape;
use journal::headers::JournalHeader;
use layout::{Layout, Shape};
use lent::reading::words_in;
use records::StripeRecord;
use wire::{Header, stripe_of, transfer_of};

// Of a receiver that has its own cells alone: the shape, and the length of its part.
fn check_receiver(z: Shape, node: usize, own_bytes: usize) -> Result<Layout, Refusal>
    ensures refusal { refusal_number result ≡ receiver_refusal z node own_bytes }
    ensures layout { IfOk result (λ layout. layout.shape ≡ z) }
{
    let layout = check_shape(z)?;
    if own_bytes != node_bytes(layout, node) {
        return Err(Refusal::Length);
    }
    Ok(layout)
}

// From the lengths, the header, the word that is touched, kind 10 of w, the node and the message's four words.
fn check_own(
    z: Shape,
    own_bytes: usize,
    message_bytes: usize,
    space_bytes: usize,
    h: JournalHeader,
    word: u32,
    node: usize,
    m: Header,
) -> Result<Layout, Refusal>
    ensures refusal { refusal_number result ≡ own_refusal z own_bytes message_bytes space_bytes h word node m }
    ensures layout { IfOk result (λ layout. layout.shape ≡ z) }
{
    let layout = check_receiver(z, node, own_bytes)?;
    check_message(layout, message_bytes, space_bytes, h, word, node, m)?;
    Ok(layout)
}

// A delta is added to slot w, any other block stored there.
fn deliver_own(z: Layout, own: &mut [u8], w: usize, e: usize, message: &[u8])
    requires w_bound { (w < kept z.shape) × (w * z.shape.b + z.shape.b ≤ length own.old) × (length message.now ≡ 16 + z.shape.b) }
    ensures { own.new ≡ own_delivered z.shape own.old w e message.now }
{
    let Shape { n, k, b, .. } = z.shape;
    if e < n - k - 1 {
        area::add(own, w * b, message, 16, b);
    } else {
        area::copy(own, w * b, message, 16, b);
    }
}

// Deliver but for reading the message's four words, `m`, and for the receipt, whose space has so many bytes. The node works on its own
// part of the area. It has the header, whose count it raises, and the record of the stripe that the message names, `stripe_of(m)`, in which
// it reads and marks the receivers' word, kind 10.
pub fn accept_at_node(
    z: Shape,
    own: &mut [u8],
    h: &mut JournalHeader,
    stripe: &mut StripeRecord,
    node: usize,
    m: Header,
    message: &[u8],
    space_bytes: usize,
) -> Result<Step, Refusal>
    requires { m ≡ header_at message.now 0 }
    ensures { ◌≡◌ {A = AcceptedAtNode}
        (record { answer = of_step result; own = own.new; header = h.new; stripe = stripe.new })
        (accept_at_node z own.old h.old stripe.old node message.now space_bytes) }
{
    let layout = check_own(
        z,
        own.len(),
        message.len(),
        space_bytes,
        *h,
        stripe.accepted,
        node,
        m,
    )?;
    let e = transfer_of(m);
    if stripe.is_accepted(e as u32) {
        return Ok(Step::Already);
    }
    deliver_own(layout, own, stripe_of(m), e, message);
    *h = counted_up(*h);
    *stripe = stripe.accept(e as u32);
    Ok(Step::Done)
}

// Deliver, its receipt too. A repeat only writes the receipt.
pub fn deliver_at_node(
    z: Shape,
    own: &mut [u8],
    h: &mut JournalHeader,
    stripe: &mut StripeRecord,
    node: usize,
    message: &[u8],
    receipt: &mut [u8],
) -> Result<Step, Refusal>
    ensures { ◌≡◌ {A = DeliveredAtNode}
        (record {
          answer = of_step result;
          own = own.new;
          header = h.new;
          stripe = stripe.new;
          receipt = receipt.new;
        }) (deliver_at_node z own.old h.old stripe.old node message.now receipt.old) }
{
    let m = words_in(message);
    let answer = accept_at_node(z, own, h, stripe, node, m, message, receipt.len());
    write_receipt(answer, m, receipt);
    answer
}
