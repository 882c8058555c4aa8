// Parity rows and deltas by document 01's code, over blocks at given offsets: at most 20, never by the layout.
#![tactic(auto)]

pub mod coefficients;
pub mod running;

ghost use Rattle.std.specs.Prelude.{◌≡◌, ◌+◌, ◌≤◌, ◌<◌, length};
ghost use Rattle.area.specs.Area.{block, put, same_bytes, xor_blocks};
ghost use Rattle.combine.specs.Columns.{columns_at, Inside};
ghost use Rattle.tiles.specs.Clear.{Clear};
ghost use Rattle.code.specs.Rows.{parity_row, delta, vandermonde};
ghost use Rattle.code.specs.Recognised.{Recognised, AllRecognised};

use coefficients::fill;
use gf256::Tables;
use powers::ratio::ratio;
use running::{fill_powers, fill_row};

// The factor by which row j's coefficients over k columns go up, recognised from those in the table, if there is one.
pub fn multiplier(j: usize, k: usize) -> Option<u8>
    requires { (j < 4) × (k ≤ 19) }
    ensures { Recognised k j result }
{
    let mut q = [0u8; 20];
    fill(&mut q, j, 0, k);
    ratio(&q, k)
}

// Those of all four rows, recognised from their running powers. Encode and begin ask for them once in a call.
pub fn multipliers(k: usize) -> [Option<u8>; 4]
    requires { k ≤ 19 }
    ensures { AllRecognised k result }
{
    let tables = Tables::new();
    let mut m = [None; 4];
    for j in 0..4 {
        let mut q = [0u8; 20];
        fill_powers(&mut q, &tables, (j + 1) as u8, k);
        m[j] = ratio(&q, k);
    }
    m
}

// Stores parity row j over the k columns at the offsets in `at` in the block at `to`; m is the row's multiplier, if it has one.
pub fn write_row(
    area: &mut [u8],
    to: usize,
    at: &[usize; 20],
    k: usize,
    j: usize,
    m: Option<u8>,
    b: usize,
)
    requires inside { Inside at.now k b area.old }
    requires b_in_bounds { (to + b ≤ length area.old) × (b ≤ 4096) × (k ≤ 19) × (j < 4) }
    requires clear { Clear at.now k to b }
    requires recognised { Recognised k j m }
    ensures { area.new ≡ put area.old to
        (parity_row vandermonde b k j (columns_at at.now area.old b)) }
{
    match m {
        Some(m) => combine::store_powers(area, to, at, k, m, b),
        None => {
            let mut q = [0u8; 20];
            fill_row(&mut q, j, k);
            combine::store(area, to, at, &q, k, b);
        }
    }
}

// Makes parity row j over the k columns at the offsets in `at`, in a slice of its own.
fn make_row(out: &mut [u8], src: &[u8], at: &[usize; 20], k: usize, j: usize, m: Option<u8>)
    requires inside { Inside at.now k (length out.old) src.now }
    requires k_bound { (k ≤ 19) × (j < 4) }
    requires recognised { Recognised k j m }
    ensures { out.new ≡ parity_row vandermonde (length out.old) k j
        (columns_at at.now src.now (length out.old)) }
{
    match m {
        Some(m) => combine::combine_powers(out, src, at, k, m),
        None => {
            let mut q = [0u8; 20];
            fill_row(&mut q, j, k);
            combine::combine(out, src, at, &q, k);
        }
    }
}

// Whether the block at `to` is parity row j over the k columns at the offsets in `at`; m is the row's multiplier, if it has one.
pub fn row_holds(
    area: &[u8],
    to: usize,
    at: &[usize; 20],
    k: usize,
    j: usize,
    m: Option<u8>,
    b: usize,
) -> bool
    requires inside { Inside at.now k b area.now }
    requires b_in_bounds { (to + b ≤ length area.now) × (b ≤ 4096) × (k ≤ 19) × (j < 4) }
    requires recognised { Recognised k j m }
    ensures { result ≡ same_bytes (block area.now to b)
        (parity_row vandermonde b k j (columns_at at.now area.now b)) }
{
    if b <= 256 {
        row_holds_by::<256>(area, to, at, k, j, m, b)
    } else {
        row_holds_by::<4096>(area, to, at, k, j, m, b)
    }
}

// The same by way of a scratch block of S bytes: to make a large one costs more than to use it for a small block.
fn row_holds_by<const S: usize>(
    area: &[u8],
    to: usize,
    at: &[usize; 20],
    k: usize,
    j: usize,
    m: Option<u8>,
    b: usize,
) -> bool
    requires inside { Inside at.now k b area.now }
    requires b_in_bounds { (to + b ≤ length area.now) × (b ≤ S) × (S ≤ 4096) × (k ≤ 19) × (j < 4) }
    requires recognised { Recognised k j m }
    ensures { result ≡ same_bytes (block area.now to b)
        (parity_row vandermonde b k j (columns_at at.now area.now b)) }
{
    let mut row = [0u8; S];
    make_row(&mut row[..b], area, at, k, j, m);
    area::equal(area, to, &row, 0, b)
}

// Makes the delta of row j, where the s blocks of src at the offsets in `at` become columns k to k + s - 1. Every delta is
// made here.
pub fn make_delta(out: &mut [u8], src: &[u8], at: &[usize; 20], k: usize, s: usize, j: usize)
    requires inside { Inside at.now s (length out.old) src.now }
    requires s_bound { (k + s ≤ 19) × (j < 4) }
    ensures { out.new ≡ delta vandermonde (length out.old) k s j
        (columns_at at.now src.now (length out.old)) }
{
    let mut q = [0u8; 20];
    fill(&mut q, j, k, s);
    combine::combine(out, src, at, &q, s);
}

// Adds the delta of row j to the block at `to`, in the same area.
pub fn add_delta(
    area: &mut [u8],
    to: usize,
    at: &[usize; 20],
    k: usize,
    s: usize,
    j: usize,
    b: usize,
)
    requires inside { Inside at.now s b area.old }
    requires b_in_bounds { (to + b ≤ length area.old) × (b ≤ 4096) × (k + s ≤ 19) × (j < 4) }
    ensures { area.new ≡ put area.old to
        (xor_blocks b (block area.old to b) (delta vandermonde b k s j (columns_at at.now area.old b))) }
{
    if b <= 256 {
        add_delta_by::<256>(area, to, at, k, s, j, b);
    } else {
        add_delta_by::<4096>(area, to, at, k, s, j, b);
    }
}

// The same by way of a scratch block of S bytes.
fn add_delta_by<const S: usize>(
    area: &mut [u8],
    to: usize,
    at: &[usize; 20],
    k: usize,
    s: usize,
    j: usize,
    b: usize,
)
    requires inside { Inside at.now s b area.old }
    requires b_in_bounds { (to + b ≤ length area.old) × (b ≤ S) × (S ≤ 4096) × (k + s ≤ 19) × (j < 4) }
    ensures { area.new ≡ put area.old to
        (xor_blocks b (block area.old to b) (delta vandermonde b k s j (columns_at at.now area.old b))) }
{
    let mut sum = [0u8; S];
    make_delta(&mut sum[..b], area, at, k, s, j);
    area::add(area, to, &sum, 0, b);
}

// Stores the delta of row j in the block of another slice at `to`.
pub fn write_delta(
    dst: &mut [u8],
    to: usize,
    src: &[u8],
    at: &[usize; 20],
    k: usize,
    s: usize,
    j: usize,
    b: usize,
)
    requires inside { Inside at.now s b src.now }
    requires b_in_bounds { (to + b ≤ length dst.old) × (b ≤ 4096) × (k + s ≤ 19) × (j < 4) }
    ensures { dst.new ≡ put dst.old to
        (delta vandermonde b k s j (columns_at at.now src.now b)) }
{
    if b <= 256 {
        write_delta_by::<256>(dst, to, src, at, k, s, j, b);
    } else {
        write_delta_by::<4096>(dst, to, src, at, k, s, j, b);
    }
}

// The same by way of a scratch block of S bytes.
fn write_delta_by<const S: usize>(
    dst: &mut [u8],
    to: usize,
    src: &[u8],
    at: &[usize; 20],
    k: usize,
    s: usize,
    j: usize,
    b: usize,
)
    requires inside { Inside at.now s b src.now }
    requires b_in_bounds { (to + b ≤ length dst.old) × (b ≤ S) × (S ≤ 4096) × (k + s ≤ 19) × (j < 4) }
    ensures { dst.new ≡ put dst.old to
        (delta vandermonde b k s j (columns_at at.now src.now b)) }
{
    let mut sum = [0u8; S];
    make_delta(&mut sum[..b], src, at, k, s, j);
    area::copy(dst, to, &sum, 0, b);
}
