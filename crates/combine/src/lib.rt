// The kernel: a combination of blocks at given offsets, each times its coefficient. Coefficients that go up by a constant small
// factor are taken by Horner's rule over tiles, any others by bit planes.
#![tactic(auto)]

mod dense;
pub mod offsets;
pub mod planes;
pub mod select;

ghost use Rattle.std.specs.Prelude.{◌≡◌, ◌+◌, ◌≤◌, ◌<◌, length};
ghost use Rattle.area.specs.Area.{put};
ghost use Rattle.gf256.specs.Field.{pow};
ghost use Rattle.powers.specs.Powers.{Multiplier};
ghost use Rattle.tiles.specs.Clear.{Clear};
ghost use Rattle.combine.specs.Combination.{combination};
ghost use Rattle.combine.specs.Columns.{columns_at, combined, Inside};

use dense::dense;
use powers::ratio::ratio;
use powers::scaling::{scale, scale_one};

// Stores the combination of n blocks of src, at the offsets in `at`, with the coefficients in q.
pub fn combine(out: &mut [u8], src: &[u8], at: &[usize; 20], q: &[u8; 20], n: usize)
    requires { Inside at.now n (length out.old) src.now }
    ensures { out.new ≡ combined (length out.old) n q.now at.now src.now }
{
    if n == 1 {
        scale_one(out, src, at[0], q[0]);
        return;
    }
    match ratio(q, n) {
        Some(m) => {
            tiles::block(out, src, at, n, m);
            scale(out, q[0]);
        }
        None => dense(out, src, at, q, n),
    }
}

// The same of blocks of one area, stored in its block at `to`, which may be one of the columns or meet one: summed in a scratch block
// first.
pub fn store(area: &mut [u8], to: usize, at: &[usize; 20], q: &[u8; 20], n: usize, b: usize)
    requires inside { Inside at.now n b area.old }
    requires b_in_bounds { (to + b ≤ length area.old) × (b ≤ 4096) }
    ensures { area.new ≡ put area.old to (combined b n q.now at.now area.old) }
{
    if b <= 256 {
        store_by::<256>(area, to, at, q, n, b);
    } else {
        store_by::<4096>(area, to, at, q, n, b);
    }
}

// The same by way of a scratch block of S bytes: to make a large one costs more than to use it for a small block.
fn store_by<const S: usize>(
    area: &mut [u8],
    to: usize,
    at: &[usize; 20],
    q: &[u8; 20],
    n: usize,
    b: usize,
)
    requires inside { Inside at.now n b area.old }
    requires b_in_bounds { (to + b ≤ length area.old) × (b ≤ S) × (S ≤ 4096) }
    ensures { area.new ≡ put area.old to (combined b n q.now at.now area.old) }
{
    let mut sum = [0u8; S];
    combine(&mut sum[..b], area, at, q, n);
    area::copy(area, to, &sum, 0, b);
}

// Stores the combination of n blocks of src whose coefficients are known to be the powers of m.
pub fn combine_powers(out: &mut [u8], src: &[u8], at: &[usize; 20], n: usize, m: u8)
    requires inside { Inside at.now n (length out.old) src.now }
    requires n_nonzero { 0 < n }
    requires multiplier { Multiplier m }
    ensures { out.new ≡ combination (length out.old) n (pow m)
        (columns_at at.now src.now (length out.old)) }
{
    tiles::block(out, src, at, n, m);
}

// The same of blocks of one area, stored straight in its block at `to`.
pub fn store_powers(area: &mut [u8], to: usize, at: &[usize; 20], n: usize, m: u8, b: usize)
    requires inside { Inside at.now n b area.old }
    requires b_in_bounds { (to + b ≤ length area.old) × (0 < n) }
    requires clear { Clear at.now n to b }
    requires multiplier { Multiplier m }
    ensures { area.new ≡ put area.old to
        (combination b n (pow m) (columns_at at.now area.old b)) }
{
    tiles::within(area, to, at, n, m, b);
}
