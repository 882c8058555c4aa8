// Document 01's call release: performs the swap's local move, zeroes the first places of a stripe's new blocks, sets bit 27.
#![tactic(auto)]

pub mod node;

ghost use Rattle.std.specs.Prelude.{◌≡◌};
ghost use Rattle.answer.specs.Cases.{of_step};
ghost use Rattle.growth.specs.Shared.{Outcome};
ghost use Rattle.growth.specs.Release.{release};

use answer::{Refusal, Step};
use counts::addresses::{node_end_byte, node_start_byte};
use layout::Shape;
use lent::check_store;
use lent::reading::{header_in, record_in};
use lent::steps::keep_step;
use node::release_at_node;
use places::transfers::sender_of;

// Gives up the first places of the new blocks of kept stripe w and sets bit 27 of its record: handed on to the node that has them.
pub fn release(z: Shape, area: &mut [u8], journal: &mut [u32], w: usize) -> Result<Step, Refusal>
    ensures { ◌≡◌ {A = Outcome} (record { answer = of_step result; area = area.new; journal = journal.new })
        (release z area.old journal.old w) }
{
    let layout = check_store(z, area.len(), journal.len())?;
    let h = header_in(journal);
    let mut stripe = record_in(journal, w);
    let node = sender_of(layout, w);
    let start = node_start_byte(layout, node);
    let end = node_end_byte(layout, node);
    let step = release_at_node(z, &mut area[start..end], h, &mut stripe, node, w);
    keep_step(journal, w, step, stripe)
}
