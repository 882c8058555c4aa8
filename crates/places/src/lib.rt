// The closed layout: the nodes of a new stripe's columns.
#![tactic(auto)]

pub mod kinds;
pub mod transfers;

ghost use Rattle.std.specs.Prelude.{◌≡◌, true, ◌+◌, ◌<◌};
ghost use Rattle.layout.specs.Counts.{kept};
ghost use Rattle.layout.specs.Closed.{swapped, swap_index, new_block_node, new_data_node};

use counts::straight_stripes;
use layout::Layout;
use sources::nodes::data_node;
use sources::source_node;

// Whether stripe w is swapped.
#[tactic(auto, unfolding(layout::specs::Closed::swapped))]
pub fn is_swapped(z: Layout, w: usize) -> bool
    ensures { result ≡ swapped z.shape w }
{
    w >= straight_stripes(z)
}

// Which new node gets row 0 of the swapped stripe w: document 01's y.
#[tactic(auto, unfolding(layout::specs::Closed::swapped, layout::specs::Closed::swap_index))]
pub fn swap_index(z: Layout, w: usize) -> usize
    requires w_value { swapped z.shape w ≡ true }
    ensures { (result ≡ swap_index z.shape w) × (result < z.shape.s) }
{
    (w - straight_stripes(z)) % z.shape.s
}

// The node of new block t of new stripe w.
#[tactic(auto, unfolding(layout::specs::Closed::new_block_node))]
pub fn new_block_node(z: Layout, w: usize, t: usize) -> usize
    requires w_bound { w < kept z.shape }
    requires t_lt_s { t < z.shape.s }
    ensures { (result ≡ new_block_node z.shape w t) × (result < z.shape.n + z.shape.s) }
{
    if is_swapped(z, w) && t == swap_index(z, w) {
        source_node(z, w)
    } else {
        z.shape.n + t
    }
}

// The node of column c of new stripe w.
#[tactic(auto, using(layout::proofs::Bounds::kept_le), unfolding(layout::specs::Closed::new_data_node))]
pub fn new_data_node(z: Layout, w: usize, c: usize) -> usize
    requires w_bound { w < kept z.shape }
    requires c_bound { c < z.shape.k + z.shape.s }
    ensures { (result ≡ new_data_node z.shape w c) × (result < z.shape.n + z.shape.s) }
{
    if c < z.shape.k {
        data_node(z, w, c)
    } else {
        new_block_node(z, w, c - z.shape.k)
    }
}
