// Receipt as a single node runs it, the sender of the transfer. It needs none of its cells for it.
ghost use Rattle.std.specs.Prelude.{◌≡◌};
ghost use Rattle.answer.specs.Cases.{of_step};
ghost use Rattle.wire.specs.Headers.{header_at};
ghost use Rattle.receipt.specs.Own.{ReceiptedAtNode, receipt_at_node};

use crate::refusals::check_own;
use answer::{Refusal, Step};
use journal::headers::JournalHeader;
use layout::Shape;
use lent::reading::words_in;
use records::StripeRecord;
use wire::{Header, transfer_of};

// Receipt but for reading the receipt's four words, `m`.
pub fn take_receipt_at_node(
    z: Shape,
    h: JournalHeader,
    stripe: &mut StripeRecord,
    node: usize,
    m: Header,
    bytes: &[u8],
) -> Result<Step, Refusal>
    requires { m ≡ header_at bytes.now 0 }
    ensures { ◌≡◌ {A = ReceiptedAtNode} (record { answer = of_step result; stripe = stripe.new })
        (receipt_at_node z h stripe.old node bytes.now) }
{
    check_own(z, bytes.len(), h, stripe.progress, node, m)?;
    let e = transfer_of(m) as u32;
    if stripe.is_receipted(e) {
        return Ok(Step::Already);
    }
    *stripe = stripe.receipt(e);
    Ok(Step::Done)
}

// The node has the header and the record of the stripe that the receipt names, in which it reads and marks its own word, kind 11.
pub fn receipt_at_node(
    z: Shape,
    h: JournalHeader,
    stripe: &mut StripeRecord,
    node: usize,
    bytes: &[u8],
) -> Result<Step, Refusal>
    ensures { ◌≡◌ {A = ReceiptedAtNode} (record { answer = of_step result; stripe = stripe.new })
        (receipt_at_node z h stripe.old node bytes.now) }
{
    take_receipt_at_node(z, h, stripe, node, words_in(bytes), bytes)
}
