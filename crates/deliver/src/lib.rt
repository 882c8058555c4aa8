// Document 01's call deliver: a message's block goes into slot w of a node, its transfer is marked and counted, its receipt written.
#![tactic(auto)]

pub mod node;
pub mod refusals;

ghost use Rattle.std.specs.Prelude.{◌≡◌, ◌+◌, ◌*◌, ◌<◌, false, length, Ok};
ghost use Rattle.answer.specs.Answers.{done, is_refused, on_done, unless_refused};
ghost use Rattle.answer.specs.Cases.{of_step};
ghost use Rattle.wire.specs.Headers.{header_at, header_bytes, receipt_of};
ghost use Rattle.journal.specs.Journal.{put_header, count_of, put_record};
ghost use Rattle.growth.specs.Shared.{Outcome};
ghost use Rattle.growth.specs.Deliver.{DeliverOutcome, counted_up, deliver};
ghost use Rattle.deliver.specs.Acceptance.{acceptance};

use answer::{Refusal, Step};
use counts::addresses::{node_end_byte, node_start_byte};
use journal::headers::{JournalHeader, count_of, count_word, write_header};
use journal::stripes::write_record;
use layout::Shape;
use lent::check_store;
use lent::reading::{header_in, record_in, words_in};
use node::accept_at_node;
use records::StripeRecord;
use refusals::check_message;
use wire::{Header, receipt_of, stripe_of};

// The header with one accepted transfer more.
#[tactic(auto, unfolding(growth::specs::Deliver::counted_up))]
fn counted_up(h: JournalHeader) -> JournalHeader
    requires { count_of h < 26880 }
    ensures { result ≡ counted_up h }
{
    JournalHeader {
        count: count_word(count_of(h) + 1),
        ..h
    }
}

// Whether an answer is a refusal.
pub fn refused(answer: Result<Step, Refusal>) -> bool
    ensures { result ≡ is_refused (of_step answer) }
{
    match answer {
        Ok(Step::Done) => false,
        Ok(Step::Already) => false,
        Err(_) => true,
    }
}

// Writes the record of stripe w and the header back, if the deliver was done.
fn keep_delivery(journal: &mut [u32], w: usize, step: Step, h: JournalHeader, stripe: StripeRecord)
    requires { of_step (Ok step) ≡ done → 5 + 2 * w < length journal.old }
    ensures { journal.new ≡ on_done (of_step (Ok step)) (put_header (put_record journal.old w stripe) h) journal.old }
{
    match step {
        Step::Done => {
            write_record(journal, w, stripe);
            write_header(journal, h);
        }
        Step::Already => {}
    }
}

// Deliver but for reading the message's four words, `m`, and for the receipt, whose space has so many bytes. Drive has both in one
// space, and reads the words once for a transfer. The node does the work; a node out of range, which is refused, has no part of the area.
pub fn accept(
    z: Shape,
    area: &mut [u8],
    journal: &mut [u32],
    node: usize,
    m: Header,
    message: &[u8],
    space_bytes: usize,
) -> Result<Step, Refusal>
    requires { m ≡ header_at message.now 0 }
    ensures { ◌≡◌ {A = Outcome} (record { answer = of_step result; area = area.new; journal = journal.new })
        (acceptance z area.old journal.old node message.now space_bytes) }
{
    let layout = check_store(z, area.len(), journal.len())?;
    let mut h = header_in(journal);
    let w = stripe_of(m);
    let mut stripe = record_in(journal, w);
    if node >= z.n + z.s {
        check_message(
            layout,
            message.len(),
            space_bytes,
            h,
            stripe.accepted,
            node,
            m,
        )?;
        return Err(Refusal::OutOfRange);
    }
    let start = node_start_byte(layout, node);
    let own = &mut area[start..node_end_byte(layout, node)];
    let step = accept_at_node(z, own, &mut h, &mut stripe, node, m, message, space_bytes)?;
    keep_delivery(journal, w, step, h, stripe);
    Ok(step)
}

// The receipt of the message with the words `m`, unless the answer is a refusal.
fn write_receipt(answer: Result<Step, Refusal>, m: Header, receipt: &mut [u8])
    requires { is_refused (of_step answer) ≡ false → length receipt.old ≡ 16 }
    ensures { receipt.new ≡ unless_refused (of_step answer) (header_bytes (receipt_of m)) receipt.old }
{
    if !refused(answer) {
        wire::write_header(receipt, 0, receipt_of(m));
    }
}

// Delivers a message at a node: the block goes into the node's slot, the transfer is marked and counted, and the receipt written. A
// repeat only writes the receipt.
pub fn deliver(
    z: Shape,
    area: &mut [u8],
    journal: &mut [u32],
    node: usize,
    message: &[u8],
    receipt: &mut [u8],
) -> Result<Step, Refusal>
    ensures { ◌≡◌ {A = DeliverOutcome}
        (record { answer = of_step result; area = area.new; journal = journal.new; receipt = receipt.new })
        (deliver z area.old journal.old node message.now receipt.old) }
{
    let m = words_in(message);
    let answer = accept(z, area, journal, node, m, message, receipt.len());
    write_receipt(answer, m, receipt);
    answer
}
