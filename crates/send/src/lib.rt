// Document 01's call send: writes the message of a transfer.
#![tactic(auto)]

pub mod node;

ghost use Rattle.std.specs.Prelude.{◌≡◌};
ghost use Rattle.answer.specs.Cases.{of_step};
ghost use Rattle.growth.specs.Send.{SendOutcome, send};

use answer::{Refusal, Step};
use counts::addresses::node_part;
use layout::Shape;
use lent::check_store;
use lent::reading::{header_in, record_in};
use node::send_at_node;
use places::transfers::sender_of;

// Writes the message of transfer e of kept stripe w: handed on to its sender.
pub fn send(
    z: Shape,
    area: &[u8],
    journal: &[u32],
    w: usize,
    e: usize,
    space: &mut [u8],
) -> Result<Step, Refusal>
    ensures { ◌≡◌ {A = SendOutcome} (record { answer = of_step result; space = space.new })
        (send z area.now journal.now w e space.old) }
{
    let layout = check_store(z, area.len(), journal.len())?;
    let h = header_in(journal);
    let stripe = record_in(journal, w);
    let node = sender_of(layout, w);
    let own = node_part(area, layout, node);
    send_at_node(z, own, h, stripe, node, w, e, space)
}
