// A row's coefficients as a running value: the current power of the row's multiplier, multiplied once for each column.
ghost use Rattle.std.specs.Prelude.{◌≡◌, ℕ, ◌≤◌, ◌<◌, length, get_or};
ghost use Rattle.code.specs.Rows.{coefficient};
ghost use Rattle.code.specs.Filled.{Filled};

use gf256::Tables;

// Puts the coefficients of the columns 0 to count - 1 of a row into q; m is the row's multiplier, whatever it is. The caller makes the
// tables once, since they are built anew each time.
pub fn fill_powers(q: &mut [u8; 20], tables: &Tables, m: u8, count: usize)
    requires { count ≤ 20 }
    ensures { (rows : ℕ → ℕ) (j c : ℕ) → rows j ≡ m → c < count → get_or q.new c 0 ≡ coefficient rows j c }
{
    let mut power = 1;
    for c in 0..count {
        q[c] = power;
        power = tables.mul(m, power);
    }
}

// The same of row j of document 01's code, whose multiplier is j + 1, for a caller that makes one row only.
pub fn fill_row(q: &mut [u8; 20], j: usize, k: usize)
    requires { (j < 4) × (k ≤ 19) }
    ensures { Filled j 0 k q.new }
{
    fill_powers(q, &Tables::new(), (j + 1) as u8, k);
}
