// Which lost columns the present blocks fix, and how: for any rows, at most 4 of them, and at most 20 blocks. Losses and
// coefficients come in, no contents; what comes out are coefficients, by which a caller combines blocks.
#![tactic(auto)]

ghost use Rattle.std.specs.Prelude.{◌≡◌, ◌<◌, ◌≤◌, ◌+◌, length};
ghost use Rattle.elimination.specs.Matrix.{entry, from_one};
ghost use Rattle.solver.specs.Solution.{CheckedTo, check_matrix, solved, Pivots, check_by, row_by, row_without, other_of, null_data};
ghost use Rattle.solver.specs.Solution.{null_vector, column_of};

// What the present blocks say of a lost column: a row of the solved matrix gives it, or it is open, and the null data of the
// column that it names show it. No `Result`: an open column is an answer as good as the other, and no failure.
#[derive(Clone, Copy)]
pub enum Column {
    FixedBy(usize),
    OpenBy(usize),
}

// Stores row j of the check matrix in m, whose rows before j are done and whose others are zero.
fn store_row(m: &mut [u8; 80], rows: &[u8; 80], n: usize, k: usize, losses: &[u8], j: usize)
    requires checked_to { CheckedTo (entry rows.now) n k losses.now j m.old }
    requires j_bound { (j < 4) × (k ≤ n) × (n ≤ 20) × (n ≤ length losses.now) }
    ensures { CheckedTo (entry rows.now) n k losses.now (j + 1) m.new }
{
    if k + j < n && losses[k + j] == 0 {
        area::copy(m, j * 20, rows, j * 20, k);
        m[j * 20 + (k + j)] = 1;
    }
}

// The check matrix.
fn check_matrix(rows: &[u8; 80], n: usize, k: usize, losses: &[u8]) -> [u8; 80]
    requires { (k ≤ n) × (n ≤ 20) × (n ≤ length losses.now) }
    ensures { result ≡ check_matrix (entry rows.now) n k losses.now }
{
    let mut m = [0u8; 80];
    for j in 0..4 {
        store_row(&mut m, rows, n, k, losses, j);
    }
    m
}

// The solved matrix, which the functions below read. Row j's coefficient of column c stands at 20 j + c of rows.
pub fn solve(rows: &[u8; 80], n: usize, k: usize, losses: &[u8]) -> [u8; 80]
    requires { (k ≤ n) × (n ≤ 20) × (n ≤ length losses.now) }
    ensures { result ≡ solved (entry rows.now) n k losses.now }
{
    elimination::reduce(check_matrix(rows, n, k, losses), losses, k)
}

// The pivots of the four rows.
pub fn pivots(w: &[u8; 80], losses: &[u8], k: usize) -> [Option<usize>; 4]
    requires { (k ≤ 20) × (k ≤ length losses.now) }
    ensures { Pivots losses.now k w.now result }
{
    let mut pivots = [None; 4];
    for i in 0..4 {
        pivots[i] = elimination::pivot_of(w, losses, k, i);
    }
    pivots
}

// Check i: coefficients over the present blocks whose combination vanishes if any data agree. All zero where row i has a pivot, and
// so is no check.
pub fn check(w: &[u8; 80], pivots: &[Option<usize>; 4], i: usize) -> [u8; 20]
    requires { i < 4 }
    ensures { result ≡ check_by pivots.now w.now i }
{
    let mut u = [0u8; 20];
    // A comparison, so that a must-fail edit can put another pivot in the place of none.
    let is_check = pivots[i] == None;
    if is_check {
        area::copy(&mut u, 0, w, i * 20, 20);
    }
    u
}

// The row whose pivot is column c.
fn row_of(pivots: &[Option<usize>; 4], c: usize) -> Option<usize>
    requires { c < 20 }
    ensures { (from_one result ≡ row_by pivots.now c) × (from_one result ≤ 4) }
{
    let mut row = None;
    for i in 0..4 {
        if pivots[i] == Some(c) {
            row = Some(i);
        }
    }
    row
}

// The last lost column other than c in row i.
fn other_of(w: &[u8; 80], losses: &[u8], k: usize, i: usize, c: usize) -> Option<usize>
    requires { (i < 4) × (k ≤ 20) × (k ≤ length losses.now) }
    ensures { from_one result ≡ other_of losses.now k w.now i c }
{
    let mut other = None;
    for p in 0..k {
        if p != c && elimination::has_unknown(w, losses, i, p) {
            other = Some(p);
        }
    }
    other
}

// What the present blocks say of the lost column c.
pub fn column_of(
    w: &[u8; 80],
    pivots: &[Option<usize>; 4],
    losses: &[u8],
    k: usize,
    c: usize,
) -> Column
    requires pivots { Pivots losses.now k w.now pivots.now }
    requires k_bound { (k ≤ 20) × (k ≤ length losses.now) × (c < 20) }
    ensures { result ≡ column_of losses.now k w.now c }
{
    let Some(row) = row_of(pivots, c) else {
        return Column::OpenBy(c);
    };
    match other_of(w, losses, k, row, c) {
        None => Column::FixedBy(row),
        Some(other) => Column::OpenBy(other),
    }
}

// Where row i fixes column c: the coefficients that give it.
pub fn coefficients(w: &[u8; 80], i: usize, c: usize) -> [u8; 20]
    requires { i < 4 }
    ensures { result ≡ row_without w.now i c }
{
    let mut u = [0u8; 20];
    for p in 0..20 {
        u[p] = if p == c { 0 } else { w[i * 20 + p] };
    }
    u
}

// Place p of the null data of column f.
fn null_entry(w: &[u8; 80], losses: &[u8], k: usize, f: usize, p: usize) -> u8
    requires { (k ≤ 20) × (k ≤ length losses.now) × (f < 20) × (p < 20) }
    ensures { result ≡ null_data losses.now k w.now f p }
{
    if p == f {
        return 1;
    }
    match row_of(&pivots(w, losses, k), p) {
        None => 0,
        Some(row) => w[row * 20 + f],
    }
}

// Where column f opens a column: data that are not zero there, under which every present block is zero.
pub fn null_vector(w: &[u8; 80], losses: &[u8], k: usize, f: usize) -> [u8; 20]
    requires { (k ≤ 20) × (k ≤ length losses.now) × (f < 20) }
    ensures { result ≡ null_vector losses.now k w.now f }
{
    let mut y = [0u8; 20];
    for p in 0..20 {
        y[p] = null_entry(w, losses, k, f, p);
    }
    y
}
