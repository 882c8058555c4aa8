// A combination whose coefficients go up by a constant small factor, by Horner's rule over tiles of 256 bytes: the sum of a tile is a
// local of known length, so it stays in registers while the columns go by. The multiplier is chosen once for a block.
#![tactic(auto)]

mod blocks;

ghost use Rattle.std.specs.Prelude.{◌≡◌, ◌+◌, ◌≤◌, length};
ghost use Rattle.area.specs.Area.{put};
ghost use Rattle.powers.specs.Powers.{power_bytes, Columns, Multiplier};
ghost use Rattle.tiles.specs.Clear.{Clear};

use blocks::{block_by, within_by};

// Adds up the n columns, column c times the power c of m, into a slice of its own.
pub fn block(out: &mut [u8], src: &[u8], at: &[usize; 20], n: usize, m: u8)
    requires columns { Columns at.now n (length out.old) src.now }
    requires multiplier { Multiplier m }
    ensures { out.new ≡ power_bytes m at.now src.now n 0 0 (length out.old) }
{
    match m {
        1 => block_by::<1>(out, src, at, n),
        2 => block_by::<2>(out, src, at, n),
        3 => block_by::<3>(out, src, at, n),
        4 => block_by::<4>(out, src, at, n),
        _ => block_by::<8>(out, src, at, n),
    }
}

// The same into a block of the same area, straight, without a scratch block.
pub fn within(area: &mut [u8], to: usize, at: &[usize; 20], n: usize, m: u8, b: usize)
    requires columns { Columns at.now n b area.old }
    requires b_in_bounds { to + b ≤ length area.old }
    requires clear { Clear at.now n to b }
    requires multiplier { Multiplier m }
    ensures { area.new ≡ put area.old to (power_bytes m at.now area.old n 0 0 b) }
{
    match m {
        1 => within_by::<1>(area, to, at, n, b),
        2 => within_by::<2>(area, to, at, n, b),
        3 => within_by::<3>(area, to, at, n, b),
        4 => within_by::<4>(area, to, at, n, b),
        _ => within_by::<8>(area, to, at, n, b),
    }
}
