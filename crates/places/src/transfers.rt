// The transfers of a stripe: who sends, who receives, and of what kind.
ghost use Rattle.std.specs.Prelude.{◌≡◌, ◌+◌, ◌<◌, ◌≤◌};
ghost use Rattle.layout.specs.Counts.{transfers};
ghost use Rattle.layout.specs.Transfers.{sender, receiver, transfer_kind};
ghost use Rattle.places.specs.Kinds.{kind_number};

use crate::kinds::Kind;
use crate::{is_swapped, swap_index};
use layout::{Layout, Shape};
use sources::nodes::row_node;
use sources::source_node;

// The node that sends all transfers of stripe w.
#[tactic(auto, unfolding(layout::specs::Transfers::sender))]
pub fn sender_of(z: Layout, w: usize) -> usize
    ensures { (result ≡ sender z.shape w) × (result < z.shape.n) }
{
    source_node(z, w)
}

// The node that receives transfer e of stripe w.
#[tactic(auto, unfolding(layout::specs::Transfers::receiver, layout::specs::Counts::transfers))]
pub fn receiver_of(z: Layout, w: usize, e: usize) -> usize
    requires w_bound { w < 268435456 }
    requires e_bound { e < transfers z.shape }
    ensures { (result ≡ receiver z.shape w e) × (result < z.shape.n + z.shape.s) }
{
    let Shape { n, k, .. } = z.shape;
    let deltas = n - k - 1;
    if e < deltas {
        row_node(z, w, e + 1)
    } else {
        n + (e - deltas)
    }
}

// The kind of transfer e of stripe w.
#[tactic(auto, unfolding(layout::specs::Transfers::transfer_kind))]
pub fn kind_of(z: Layout, w: usize, e: usize) -> Kind
    ensures { (kind_number result ≡ transfer_kind z.shape w e) × (kind_number result ≤ 3) }
{
    let deltas = z.shape.n - z.shape.k - 1;
    if e < deltas {
        Kind::Delta
    } else if is_swapped(z, w) && e - deltas == swap_index(z, w) {
        Kind::ParityRow
    } else {
        Kind::NewBlock
    }
}
