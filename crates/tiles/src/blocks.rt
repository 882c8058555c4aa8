// A block by tiles, for each multiplier.
ghost use Rattle.std.specs.Prelude.{◌≡◌, ◌+◌, ◌≤◌, length};
ghost use Rattle.area.specs.Area.{put};
ghost use Rattle.powers.specs.Powers.{power_bytes, Columns};
ghost use Rattle.tiles.specs.Clear.{Clear};

use powers::horner::horner;

const TILE: usize = 256;

// Adds up the n columns, column c times the power c of M, into a slice of its own.
pub fn block_by<const M: u8>(out: &mut [u8], src: &[u8], at: &[usize; 20], n: usize)
    requires { Columns at.now n (length out.old) src.now }
    ensures { out.new ≡ power_bytes M at.now src.now n 0 0 (length out.old) }
{
    let tiles = out.len() / TILE;
    for t in 0..tiles {
        let mut sum = [0u8; TILE];
        horner::<M>(&mut sum, src, at, n, t * TILE);
        area::copy(out, t * TILE, &sum, 0, TILE);
    }
    let rest = tiles * TILE;
    if rest < out.len() {
        horner::<M>(&mut out[rest..], src, at, n, rest);
    }
}

// The same into the block at `to` of the area that the columns are in.
pub fn within_by<const M: u8>(area: &mut [u8], to: usize, at: &[usize; 20], n: usize, b: usize)
    requires columns { Columns at.now n b area.old }
    requires b_in_bounds { to + b ≤ length area.old }
    requires clear { Clear at.now n to b }
    ensures { area.new ≡ put area.old to (power_bytes M at.now area.old n 0 0 b) }
{
    let tiles = b / TILE;
    for t in 0..tiles {
        let mut sum = [0u8; TILE];
        horner::<M>(&mut sum, area, at, n, t * TILE);
        area::copy(area, to + t * TILE, &sum, 0, TILE);
    }
    let rest = b % TILE;
    if 0 < rest {
        let mut sum = area::small();
        horner::<M>(&mut sum[..rest], area, at, n, tiles * TILE);
        area::copy(area, to + tiles * TILE, &sum, 0, rest);
    }
}
