// The check of a shape, the numbers of stripes and of transfers, and where nodes and slots stand in the area.
#![tactic(auto)]

pub mod addresses;

ghost use Rattle.std.specs.Prelude.{◌≡◌, ◌+◌, ◌≤◌, leb, IfOk};
ghost use Rattle.answer.specs.Numbers.{refusal_number};
ghost use Rattle.layout.specs.Ranges.{within_ranges, shape_refusal};
ghost use Rattle.layout.specs.Counts.{kept, dissolved, stripes, straight_stripes, transfers, all_transfers};

use answer::Refusal;
use layout::{Layout, Shape};

// n + s <= 20, without the sum where it could wrap.
fn few_nodes(n: usize, s: usize) -> bool
    ensures { result ≡ leb (n + s) 20 }
{
    n <= 20 && s <= 20 && n + s <= 20
}

// Whether every number of a shape is within its range.
fn within_ranges(z: Shape) -> bool
    ensures { result ≡ within_ranges z }
{
    z.k >= 1
        && z.n > z.k
        && z.s >= 1
        && few_nodes(z.n, z.s)
        && z.n - z.k <= 4
        && z.b >= 1
        && z.b <= 4096
}

// The layout of a shape, unless its ranges or its new nodes refuse it.
#[tactic(auto, unfolding(layout::specs::Ranges::shape_refusal))]
pub fn check_shape(z: Shape) -> Result<Layout, Refusal>
    ensures refusal { refusal_number result ≡ shape_refusal z }
    ensures layout { IfOk result (λ l. l.shape ≡ z) }
{
    if !within_ranges(z) {
        return Err(Refusal::Shape);
    }
    if z.s * (z.n - z.k - 1) > z.n {
        return Err(Refusal::TooManyNewNodes);
    }
    Ok(Layout { shape: z })
}

// P, the kept stripes.
pub fn kept_count(z: Layout) -> usize
    ensures { (result ≡ kept z.shape) × (result ≤ 6840) }
{
    let Shape { n, k, s, .. } = z.shape;
    n * k * (n + s)
}

// The dissolved stripes.
pub fn dissolved_count(z: Layout) -> usize
    ensures { (result ≡ dissolved z.shape) × (result ≤ 7220) }
{
    let Shape { n, s, .. } = z.shape;
    n * s * (n + s)
}

// G, all stripes.
pub fn stripe_count(z: Layout) -> usize
    ensures { (result ≡ stripes z.shape) × (result ≤ 7220) }
{
    kept_count(z) + dissolved_count(z)
}

// T, the straight ones of the kept stripes.
pub fn straight_stripes(z: Layout) -> usize
    ensures { (result ≡ straight_stripes z.shape) × (result ≤ 6840) }
{
    let Shape { n, k, s, .. } = z.shape;
    n * k * (n - s * (n - k - 1))
}

// The transfers of one stripe.
pub fn transfer_count(z: Layout) -> usize
    ensures { (result ≡ transfers z.shape) × (result ≤ 18) }
{
    let Shape { n, k, s, .. } = z.shape;
    s + (n - k) - 1
}

// The transfers of the whole growth.
pub fn all_transfers(z: Layout) -> usize
    ensures { (result ≡ all_transfers z.shape) × (result ≤ 26880) }
{
    kept_count(z) * transfer_count(z)
}
