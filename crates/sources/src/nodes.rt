// The nodes of a stripe's rows and columns. The stripe may be any number of 28 bits, as many as a message's word has for it.
ghost use Rattle.std.specs.Prelude.{◌≡◌, ◌<◌, ◌≤◌};
ghost use Rattle.layout.specs.Nodes.{row_node, data_node};

use layout::{Layout, Shape};

// The node of row j of stripe g.
#[tactic(auto, using(layout::proofs::NodeLaws::row_node_lt), unfolding(layout::specs::Nodes::row_node))]
pub fn row_node(z: Layout, g: usize, j: usize) -> usize
    requires g_bound { g ≤ 268435456 }
    requires j_bound { j ≤ 20 }
    ensures { (result ≡ row_node z.shape g j) × (result < z.shape.n) }
{
    (g + j) % z.shape.n
}

// The node of column d of stripe g.
#[tactic(auto, using(layout::proofs::NodeLaws::data_node_lt), unfolding(layout::specs::Nodes::data_node))]
pub fn data_node(z: Layout, g: usize, d: usize) -> usize
    requires g_bound { g ≤ 268435456 }
    requires d_bound { d ≤ 20 }
    ensures { (result ≡ data_node z.shape g d) × (result < z.shape.n) }
{
    let Shape { n, k, .. } = z.shape;
    (g + (n - k) + d) % n
}
