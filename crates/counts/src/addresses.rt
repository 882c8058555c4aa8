// Where a node's slots stand in the area.
ghost use Rattle.std.specs.Prelude.{◌≡◌, ◌+◌, ◌*◌, ◌<◌, ◌≤◌, length, take, drop};
ghost use Rattle.layout.specs.Addresses.{node_slots, node_start, address, area_length};

use crate::{kept_count, stripe_count};
use layout::Layout;

// How many slots node v has.
pub fn node_slots(z: Layout, v: usize) -> usize
    ensures { (result ≡ node_slots z.shape v) × (result ≤ 7220) }
{
    if v < z.shape.n {
        stripe_count(z)
    } else {
        kept_count(z)
    }
}

// The number of node v's first slot; for v = n + s that of all slots.
pub fn node_start(z: Layout, v: usize) -> usize
    requires v_bound { v ≤ z.shape.n + z.shape.s }
    ensures { (result ≡ node_start z.shape v) × (result ≤ 144020) }
{
    let old = z.shape.n;
    let all = stripe_count(z);
    let kept = kept_count(z);
    if v < old {
        v * all
    } else {
        old * all + (v - old) * kept
    }
}

// The number of node v's slot g among all slots of the area.
pub fn slot_address(z: Layout, v: usize, g: usize) -> usize
    requires v_bound { v < z.shape.n + z.shape.s }
    requires g_bound { g < node_slots z.shape v }
    ensures { (result ≡ address z.shape v g) × (result ≤ 144020) }
{
    node_start(z, v) + g
}

// How many bytes the area has.
pub fn area_length(z: Layout) -> usize
    ensures { (result ≡ area_length z.shape) × (result ≤ 589905920) }
{
    node_start(z, z.shape.n + z.shape.s) * z.shape.b
}

// The first byte of node v's slots in the area; for v = n + s the area's length.
pub fn node_start_byte(z: Layout, v: usize) -> usize
    requires v_bound { v ≤ z.shape.n + z.shape.s }
    ensures { (result ≡ node_start z.shape v * z.shape.b) × (result ≤ area_length z.shape) }
{
    node_start(z, v) * z.shape.b
}

// How many bytes node v's slots have.
pub fn node_bytes(z: Layout, v: usize) -> usize
    ensures { (result ≡ node_slots z.shape v * z.shape.b) × (result ≤ 29573120) }
{
    node_slots(z, v) * z.shape.b
}

// The byte after node v's slots.
pub fn node_end_byte(z: Layout, v: usize) -> usize
    requires v_bound { v < z.shape.n + z.shape.s }
    ensures { (result ≡ node_start z.shape v * z.shape.b + node_slots z.shape v * z.shape.b) × (result ≤ area_length z.shape) }
{
    node_start_byte(z, v) + node_bytes(z, v)
}

// A node's part of the area: its slots, as one stretch that starts in the area's middle.
pub fn node_part(area: &[u8], z: Layout, v: usize) -> &[u8]
    requires v_bound { v < z.shape.n + z.shape.s }
    requires area_len { length area.now ≡ area_length z.shape }
    ensures { result.now ≡ take (node_slots z.shape v * z.shape.b) (drop (node_start z.shape v * z.shape.b) area.now) }
{
    let start = node_start_byte(z, v);
    let end = node_end_byte(z, v);
    &area[start..end]
}
