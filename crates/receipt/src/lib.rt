// Document 01's call receipt: sets the sender's bit of a transfer.
#![tactic(auto)]

pub mod node;
pub mod refusals;

ghost use Rattle.std.specs.Prelude.{◌≡◌};
ghost use Rattle.answer.specs.Cases.{of_step};
ghost use Rattle.wire.specs.Headers.{header_at};
ghost use Rattle.growth.specs.Receipt.{ReceiptOutcome, receipt};

use answer::{Refusal, Step};
use layout::Shape;
use lent::reading::{header_in, record_in, words_in};
use lent::steps::keep_step;
use node::take_receipt_at_node;
use refusals::check_journal;
use wire::{Header, stripe_of};

// Receipt but for reading the receipt's four words, `m`, which drive has at hand.
pub fn take_receipt(
    z: Shape,
    journal: &mut [u32],
    node: usize,
    m: Header,
    bytes: &[u8],
) -> Result<Step, Refusal>
    requires { m ≡ header_at bytes.now 0 }
    ensures { ◌≡◌ {A = ReceiptOutcome} (record { answer = of_step result; journal = journal.new })
        (receipt z journal.old node bytes.now) }
{
    check_journal(z, journal.len())?;
    let w = stripe_of(m);
    let mut stripe = record_in(journal, w);
    let step = take_receipt_at_node(z, header_in(journal), &mut stripe, node, m, bytes);
    keep_step(journal, w, step, stripe)
}

// Hands a receipt to the sender of its transfer.
pub fn receipt(z: Shape, journal: &mut [u32], node: usize, bytes: &[u8]) -> Result<Step, Refusal>
    ensures { ◌≡◌ {A = ReceiptOutcome} (record { answer = of_step result; journal = journal.new })
        (receipt z journal.old node bytes.now) }
{
    take_receipt(z, journal, node, words_in(bytes), bytes)
}
