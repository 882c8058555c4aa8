// What the benchmark in bench/ times below the calls: a parity row and the delta of a row, exported as they are. For C a slice is a
// pointer and a length, and an array a pointer to its numbers.
#![tactic(auto)]

ghost use Rattle.std.specs.Prelude.{◌≡◌, ◌+◌, ◌≤◌, ◌<◌, length};
ghost use Rattle.area.specs.Area.{put};
ghost use Rattle.tiles.specs.Clear.{Clear};
ghost use Rattle.combine.specs.Columns.{columns_at, Inside};
ghost use Rattle.code.specs.Rows.{parity_row, delta, vandermonde};
ghost use Rattle.code.specs.Recognised.{PowersOf};

// `code::multiplier`: the multiplier that a row is written with, 0 for none.
#[unsafe(no_mangle)]
pub extern "C" fn bench_multiplier(j: usize, k: usize) -> u8
    requires { (j < 4) × (k ≤ 19) }
    ensures { (result ≡ 0 → ⊥) → PowersOf k j result }
{
    code::multiplier(j, k).unwrap_or(0)
}

// `code::write_row`, which encode makes each parity row by.
#[unsafe(no_mangle)]
pub extern "C" fn bench_write_row(
    area: &mut [u8],
    to: usize,
    at: &[usize; 20],
    k: usize,
    j: usize,
    m: u8,
    b: usize,
)
    requires inside { Inside at.now k b area.old }
    requires b_in_bounds { (to + b ≤ length area.old) × (b ≤ 4096) × (k ≤ 19) × (j < 4) }
    requires clear { Clear at.now k to b }
    requires recognised { (m ≡ 0 → ⊥) → PowersOf k j m }
    ensures { area.new ≡ put area.old to
        (parity_row vandermonde b k j (columns_at at.now area.old b)) }
{
    let m = if m == 0 { None } else { Some(m) };
    code::write_row(area, to, at, k, j, m, b);
}

// `code::write_delta`, which send makes each delta by. Compute makes that of row 0 by the same kernel and adds it.
#[unsafe(no_mangle)]
pub extern "C" fn bench_write_delta(
    dst: &mut [u8],
    to: usize,
    src: &[u8],
    at: &[usize; 20],
    k: usize,
    s: usize,
    j: usize,
    b: usize,
)
    requires inside { Inside at.now s b src.now }
    requires b_in_bounds { (to + b ≤ length dst.old) × (b ≤ 4096) × (k + s ≤ 19) × (j < 4) }
    ensures { dst.new ≡ put dst.old to
        (delta vandermonde b k s j (columns_at at.now src.now b)) }
{
    code::write_delta(dst, to, src, at, k, s, j, b);
}
