// Document 01's call compute: adds the delta to row 0 of a stripe and sets bit 26.
#![tactic(auto)]

pub mod node;

ghost use Rattle.std.specs.Prelude.{◌≡◌};
ghost use Rattle.answer.specs.Cases.{of_step};
ghost use Rattle.growth.specs.Shared.{Outcome};
ghost use Rattle.growth.specs.Compute.{compute};

use answer::{Refusal, Step};
use counts::addresses::{node_end_byte, node_start_byte};
use layout::Shape;
use lent::check_store;
use lent::reading::{header_in, record_in};
use lent::steps::keep_step;
use node::compute_at_node;
use places::transfers::sender_of;

// Adds the delta to row 0 of kept stripe w and sets bit 26 of its record: handed on to the node that has row 0.
pub fn compute(z: Shape, area: &mut [u8], journal: &mut [u32], w: usize) -> Result<Step, Refusal>
    ensures { ◌≡◌ {A = Outcome} (record { answer = of_step result; area = area.new; journal = journal.new })
        (compute z area.old journal.old w) }
{
    let layout = check_store(z, area.len(), journal.len())?;
    let h = header_in(journal);
    let mut stripe = record_in(journal, w);
    let node = sender_of(layout, w);
    let start = node_start_byte(layout, node);
    let end = node_end_byte(layout, node);
    let step = compute_at_node(z, &mut area[start..end], h, &mut stripe, node, w);
    keep_step(journal, w, step, stripe)
}
