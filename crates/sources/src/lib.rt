// Where the new blocks of a kept stripe come from, and what a dissolved block becomes.
#![tactic(auto)]

pub mod nodes;

ghost use Rattle.std.specs.Prelude.{◌≡◌, ◌+◌, ◌<◌, ◌≤◌};
ghost use Rattle.layout.specs.Counts.{kept, stripes};
ghost use Rattle.layout.specs.Sources.{source_node, source_rank, source_slot, block_rank};
ghost use Rattle.layout.specs.Columns.{new_stripe, new_column};
ghost use Rattle.layout.specs.Offsets.{nth_offset, offset_rank};

use counts::kept_count;
use layout::{Layout, Shape};
use nodes::data_node;

// The node that all new blocks of kept stripe w come from.
#[tactic(auto, using(layout::proofs::SourceLaws::source_node_lt), unfolding(layout::specs::Sources::source_node))]
pub fn source_node(z: Layout, w: usize) -> usize
    ensures { (result ≡ source_node z.shape w) × (result < z.shape.n) }
{
    w % z.shape.n
}

// The rank of new block t of kept stripe w in its node's listing: how many stand before it.
fn source_rank(z: Layout, w: usize, t: usize) -> usize
    requires w_bound { w < kept z.shape }
    requires t_lt_s { t < z.shape.s }
    ensures { (result ≡ source_rank z.shape w t) × (result ≤ 7220) }
{
    w / z.shape.n * z.shape.s + t
}

// In a period of n slots node i has data in all but the r slots of its rows: the offset of the one of rank b.
#[tactic(auto, unfolding(layout::specs::Offsets::nth_offset))]
fn nth_offset(r: usize, i: usize, b: usize) -> usize
    requires r_bound { r ≤ 20 }
    requires i_bound { i ≤ 20 }
    requires b_bound { b ≤ 20 }
    ensures { (result ≡ nth_offset r i b) × (result ≤ 40) }
{
    if b + r <= i {
        b
    } else if r <= i {
        b + r
    } else {
        b + i + 1
    }
}

// The other way round: the rank of the data slot at offset x.
#[tactic(auto, unfolding(layout::specs::Offsets::offset_rank))]
fn offset_rank(r: usize, i: usize, x: usize) -> usize
    requires r_bound { r ≤ 20 }
    requires i_bound { i ≤ 20 }
    requires x_bound { x ≤ 20 }
    ensures { (result ≡ offset_rank r i x) × (result ≤ 20) }
{
    if x <= i {
        x
    } else if r <= i + 1 {
        x - r
    } else {
        x - (i + 1)
    }
}

// The slot that new block t of kept stripe w comes from.
pub fn source_slot(z: Layout, w: usize, t: usize) -> usize
    requires w_bound { w < kept z.shape }
    requires t_lt_s { t < z.shape.s }
    ensures { (result ≡ source_slot z.shape w t) × (result < stripes z.shape) }
{
    let Shape { n, k, .. } = z.shape;
    let rank = source_rank(z, w, t);
    let offset = nth_offset(n - k, source_node(z, w), rank % k);
    kept_count(z) + (rank / k * n + offset)
}

// The rank of block (g, d) of a dissolved stripe in its node's listing.
#[tactic(auto, using(layout::proofs::Bounds::stripes_le, crate::proofs::SourceCode::block_code, counts::proofs::Sizes::part_le))]
fn block_rank(z: Layout, g: usize, d: usize) -> usize
    requires z_bound { kept z.shape ≤ g }
    requires g_bound { g < stripes z.shape }
    requires d_lt_k { d < z.shape.k }
    ensures { (result ≡ block_rank z.shape g d) × (result ≤ 7240) }
{
    let Shape { n, k, .. } = z.shape;
    let x = g - kept_count(z);
    let offset = offset_rank(n - k, data_node(z, g, d), x % n);
    x / n * k + offset
}

// The new stripe that the old block (g, d) becomes a column of.
pub fn new_stripe(z: Layout, g: usize, d: usize) -> usize
    requires g_bound { g < stripes z.shape }
    requires d_lt_k { d < z.shape.k }
    ensures { (result ≡ new_stripe z.shape g d) × (result < kept z.shape) }
{
    if g < kept_count(z) {
        g
    } else {
        block_rank(z, g, d) / z.shape.s * z.shape.n + data_node(z, g, d)
    }
}

// The column of that new stripe which it becomes.
#[tactic(auto, unfolding(layout::specs::Columns::new_column, layout::specs::Sources::target_index))]
pub fn new_column(z: Layout, g: usize, d: usize) -> usize
    requires g_bound { g < stripes z.shape }
    requires d_lt_k { d < z.shape.k }
    ensures { (result ≡ new_column z.shape g d) × (result < z.shape.k + z.shape.s) }
{
    if g < kept_count(z) {
        d
    } else {
        z.shape.k + block_rank(z, g, d) % z.shape.s
    }
}
