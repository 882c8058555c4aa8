// Compute as a single node runs it, on its own cells alone: the node that has row 0 of the stripe and the stripe's new blocks.
ghost use Rattle.std.specs.Prelude.{◌≡◌, ◌*◌, ◌<◌, length, IfOk};
ghost use Rattle.answer.specs.Cases.{of_step};
ghost use Rattle.answer.specs.Numbers.{refusal_number};
ghost use Rattle.layout.specs.Counts.{kept, stripes};
ghost use Rattle.parts.specs.AtNode.{NodeOutcome};
ghost use Rattle.compute.specs.Own.{own_refusal, own_computed, compute_at_node};

use answer::{Refusal, Step};
use journal::headers::JournalHeader;
use layout::{Layout, Shape};
use lent::{check_sender, check_stripe};
use parts::new_offsets;
use records::StripeRecord;

// From the length of the node's part, the header, the word that is touched, kind 11 of w, and the node's number.
fn check_own(
    z: Shape,
    own_bytes: usize,
    h: JournalHeader,
    word: u32,
    node: usize,
    w: usize,
) -> Result<Layout, Refusal>
    ensures refusal { refusal_number result ≡ own_refusal z own_bytes h word node w }
    ensures layout { IfOk result (λ layout. layout.shape ≡ z) }
{
    let layout = check_sender(z, own_bytes)?;
    check_stripe(layout, h, word, node, w)?;
    Ok(layout)
}

// The delta of row 0, made from the node's new blocks of w, is added to slot w.
fn add_own_delta(z: Layout, own: &mut [u8], w: usize)
    requires own_len { (length own.old ≡ stripes z.shape * z.shape.b) × (w < kept z.shape) }
    ensures { own.new ≡ own_computed z.shape own.old w }
{
    let at = new_offsets(z, w);
    code::add_delta(own, w * z.shape.b, &at, z.shape.k, z.shape.s, 0, z.shape.b);
}

// The node works on its own part of the area. It has the header, the stripe's record, of which it reads and marks its own word, kind 11,
// and its own number.
pub fn compute_at_node(
    z: Shape,
    own: &mut [u8],
    h: JournalHeader,
    stripe: &mut StripeRecord,
    node: usize,
    w: usize,
) -> Result<Step, Refusal>
    ensures { ◌≡◌ {A = NodeOutcome} (record { answer = of_step result; own = own.new; stripe = stripe.new })
        (compute_at_node z own.old h stripe.old node w) }
{
    let layout = check_own(z, own.len(), h, stripe.progress, node, w)?;
    if stripe.is_computed() {
        return Ok(Step::Already);
    }
    add_own_delta(layout, own, w);
    *stripe = stripe.compute();
    Ok(Step::Done)
}
