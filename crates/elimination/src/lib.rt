// Four equations over twenty places, of which those whose loss byte is 1 are unknown: reduced row by row, so that each row has
// no unknown place, or a pivot of its own. No contents come in here: factors alone.
#![tactic(auto)]

ghost use Rattle.std.specs.Prelude.{◌≡◌, ◌<◌, ◌≤◌, ◌+◌, length};
ghost use Rattle.gf256.specs.Logs.{inv};
ghost use Rattle.code.specs.Agreement.{is_lost};
ghost use Rattle.elimination.specs.Matrix.{entry, from_one, has_unknown, pivot_of, scaled_row, with_added, pivoted, PivotedTo, reduced};

use gf256::Tables;

// Whether place p is unknown and row i has a factor there.
#[tactic(auto, unfolding(crate::specs::Matrix::has_unknown, crate::specs::Matrix::entry, code::specs::Agreement::is_lost))]
pub fn has_unknown(w: &[u8; 80], losses: &[u8], i: usize, p: usize) -> bool
    requires { (i < 4) × (p < 20) × (p < length losses.now) }
    ensures { result ≡ has_unknown (is_lost losses.now) w.now i p }
{
    losses[p] == 1 && 0 < w[i * 20 + p]
}

// The pivot of row i among the first k places, if it has one. It is the row's last unknown place: the solver relies on that where
// it says that null data are zero before the column that names them.
pub fn pivot_of(w: &[u8; 80], losses: &[u8], k: usize, i: usize) -> Option<usize>
    requires { (i < 4) × (k ≤ 20) × (k ≤ length losses.now) }
    ensures { from_one result ≡ pivot_of (is_lost losses.now) k w.now i }
{
    let mut pivot = None;
    for p in 0..k {
        if has_unknown(w, losses, i, p) {
            pivot = Some(p);
        }
    }
    pivot
}

// Row i times v.
fn scaled_row(tables: &Tables, w: &[u8; 80], v: u8, i: usize) -> [u8; 20]
    requires { i < 4 }
    ensures { result ≡ scaled_row w.now v i }
{
    let mut u = [0u8; 20];
    for p in 0..20 {
        u[p] = tables.mul(v, w[i * 20 + p]);
    }
    u
}

// Adds f times u to row j.
fn add_row(tables: &Tables, m: &mut [u8; 80], j: usize, f: u8, u: &[u8; 20])
    requires { j < 4 }
    ensures { m.new ≡ with_added m.old j f u.now }
{
    for p in 0..20 {
        m[j * 20 + p] ^= tables.mul(f, u[p]);
    }
}

// Row j of the pivot step at row i and place q, where u is row i made 1 there; the rows of m before j are done. A row that is 0 at
// q stays.
fn pivot_row(
    tables: &Tables,
    m: &mut [u8; 80],
    w: &[u8; 80],
    u: &[u8; 20],
    i: usize,
    q: usize,
    j: usize,
)
    requires pivoted_to { PivotedTo w.now i q j m.old }
    requires q_bound { (q < 20) × (j < 4) × (u.now ≡ scaled_row w.now (inv (entry w.now i q)) i) × (inv (entry w.now i q) < 256) }
    ensures { PivotedTo w.now i q (j + 1) m.new }
{
    let factor = w[j * 20 + q];
    if j == i {
        area::copy(m, j * 20, u, 0, 20);
    } else if factor != 0 {
        add_row(tables, m, j, factor, u);
    }
}

// The pivot step.
fn pivot(tables: &Tables, w: &[u8; 80], i: usize, q: usize) -> [u8; 80]
    requires { (i < 4) × (q < 20) × (0 < entry w.now i q) }
    ensures { result ≡ pivoted w.now i q }
{
    let u = scaled_row(tables, w, tables.inverse(w[i * 20 + q]), i);
    let mut m = *w;
    for j in 0..4 {
        pivot_row(tables, &mut m, w, &u, i, q, j);
    }
    m
}

// The reduced matrix. The tables of the field are made once for all its products.
pub fn reduce(w: [u8; 80], losses: &[u8], k: usize) -> [u8; 80]
    requires { (k ≤ 20) × (k ≤ length losses.now) }
    ensures { result ≡ reduced (is_lost losses.now) k w }
{
    let tables = Tables::new();
    let mut m = w;
    for i in 0..4 {
        if let Some(q) = pivot_of(&m, losses, k, i) {
            m = pivot(&tables, &m, i, q);
        }
    }
    m
}
