// The rows of one stripe, written or verified in pieces: all rows of a piece before the next piece, so that a piece of each column comes
// from far memory once and is near when the later rows read it.
#![tactic(auto)]

ghost use Rattle.std.specs.Prelude.{◌≡◌, ◌+◌, ◌≤◌, length};
ghost use Rattle.combine.specs.Columns.{Inside};
ghost use Rattle.code.specs.Rows.{vandermonde};
ghost use Rattle.code.specs.Recognised.{AllRecognised};
ghost use Rattle.stripes.specs.Stripes.{Stripe, Moved, Movable, with_rows, rows_hold};

// Moves the first n offsets on by the length of a piece.
fn advance(at: &mut [usize; 20], n: usize, piece: usize)
    requires at_len { (length at.old ≡ 20) × (n ≤ 20) }
    requires movable { Movable at.old n piece }
    ensures { (length at.new ≡ 20) × Moved at.old at.new n piece }
{
    for p in 0..n {
        at[p] += piece;
    }
}

// Stores the rows of a stripe in blocks of b bytes, one row after the other; m has the multipliers of the rows.
fn write_piece(
    area: &mut [u8],
    at: &[usize; 20],
    k: usize,
    rows: usize,
    m: &[Option<u8>; 4],
    b: usize,
)
    requires stripe { Stripe at.now k rows b area.old }
    requires k_bound { (k ≤ 19) × (rows ≤ 4) × (b ≤ 4096) }
    requires all_recognised { AllRecognised k m.now }
    ensures { area.new ≡ with_rows vandermonde at.now b k rows area.old }
{
    for j in 0..rows {
        code::write_row(area, at[k + j], at, k, j, m[j], b);
    }
}

// The same piece by piece, of 512 bytes each. The offsets move on with the pieces: afterwards they are of no use.
pub fn write_rows(
    area: &mut [u8],
    at: &mut [usize; 20],
    k: usize,
    rows: usize,
    m: &[Option<u8>; 4],
    b: usize,
)
    requires at_len { (length at.old ≡ 20) × Stripe at.old k rows b area.old }
    requires k_bound { (k ≤ 19) × (rows ≤ 4) × (b ≤ 4096) }
    requires all_recognised { AllRecognised k m.now }
    ensures { area.new ≡ with_rows vandermonde at.old b k rows area.old }
{
    let mut x = 0;
    while x + 512 < b {
        write_piece(area, at, k, rows, m, 512);
        advance(at, k + rows, 512);
        x += 512;
    }
    write_piece(area, at, k, rows, m, b - x);
}

// Whether each row of a stripe in blocks of b bytes is what the columns give, one row after the other; m has the multipliers of the rows.
fn piece_holds(
    area: &[u8],
    at: &[usize; 20],
    k: usize,
    rows: usize,
    m: &[Option<u8>; 4],
    b: usize,
) -> bool
    requires inside { Inside at.now (k + rows) b area.now }
    requires k_bound { (k ≤ 19) × (rows ≤ 4) × (b ≤ 4096) }
    requires all_recognised { AllRecognised k m.now }
    ensures { result ≡ rows_hold vandermonde at.now b k rows area.now }
{
    for j in 0..rows {
        if !code::row_holds(area, at[k + j], at, k, j, m[j], b) {
            return false;
        }
    }
    true
}

// The same piece by piece, of 256 bytes each: their rows are made in a small scratch block. The offsets move on with the pieces: afterwards
// they are of no use.
pub fn rows_hold(
    area: &[u8],
    at: &mut [usize; 20],
    k: usize,
    rows: usize,
    m: &[Option<u8>; 4],
    b: usize,
) -> bool
    requires at_len { (length at.old ≡ 20) × Inside at.old (k + rows) b area.now }
    requires k_bound { (k ≤ 19) × (rows ≤ 4) × (b ≤ 4096) }
    requires all_recognised { AllRecognised k m.now }
    ensures { result ≡ rows_hold vandermonde at.old b k rows area.now }
{
    let mut x = 0;
    while x + 256 < b {
        if !piece_holds(area, at, k, rows, m, 256) {
            return false;
        }
        advance(at, k + rows, 256);
        x += 256;
    }
    piece_holds(area, at, k, rows, m, b - x)
}
