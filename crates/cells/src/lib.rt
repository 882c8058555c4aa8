// Where the columns and rows of a stripe, kept or dissolved, stand in the whole area.
#![tactic(auto)]

ghost use Rattle.std.specs.Prelude.{◌≡◌, ◌+◌, ◌*◌, ◌%◌, ◌<◌, ◌≤◌, length};
ghost use Rattle.layout.specs.Ranges.{rows};
ghost use Rattle.layout.specs.Counts.{stripes};
ghost use Rattle.layout.specs.Addresses.{address, area_length};
ghost use Rattle.layout.specs.Nodes.{row_node};
ghost use Rattle.cells.specs.Offsets.{ColumnOffsets, StripeOffsets};

use counts::addresses::slot_address;
use layout::{Layout, Shape};
use sources::nodes::{data_node, row_node};

// The offset of slot g of the old node v.
fn cell_offset(z: Layout, v: usize, g: usize) -> usize
    requires g_bound { (g < stripes z.shape) × (v < z.shape.n) }
    ensures { result ≡ address z.shape v g * z.shape.b }
{
    slot_address(z, v, g) * z.shape.b
}

// The old node after v, and after the last the first.
fn next_node(z: Layout, v: usize) -> usize
    requires v_lt_n { v < z.shape.n }
    ensures { result ≡ (v + 1) % z.shape.n }
{
    if v + 1 == z.shape.n { 0 } else { v + 1 }
}

// The offset of row j of stripe g.
fn row_offset(z: Layout, g: usize, j: usize) -> usize
    requires g_bound { (g < stripes z.shape) × (j < rows z.shape) }
    ensures { (result ≡ address z.shape (row_node z.shape g j) g * z.shape.b) × (result + z.shape.b ≤ area_length z.shape) }
{
    slot_address(z, row_node(z, g, j), g) * z.shape.b
}

// Puts the offsets of the k columns of stripe g, which stand on nodes one after the other, into `at`, where they are used: an array
// that comes back is copied.
fn column_offsets(at: &mut [usize; 20], z: Layout, g: usize)
    requires at_len { length at.old ≡ 20 }
    requires g_bound { g < stripes z.shape }
    ensures { ColumnOffsets z.shape g at.new }
{
    let mut v = data_node(z, g, 0);
    for d in 0..z.shape.k {
        at[d] = cell_offset(z, v, g);
        v = next_node(z, v);
    }
}

// The same, and behind them the offsets of the rows.
pub fn stripe_offsets(at: &mut [usize; 20], z: Layout, g: usize)
    requires at_len { length at.old ≡ 20 }
    requires g_bound { g < stripes z.shape }
    ensures { StripeOffsets z.shape g at.new }
{
    let Shape { n, k, .. } = z.shape;
    column_offsets(at, z, g);
    for j in 0..n - k {
        at[k + j] = row_offset(z, g, j);
    }
}
