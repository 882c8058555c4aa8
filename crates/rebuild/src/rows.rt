// Document 01's rows: their coefficients, as the solver takes them, and the writing of lost ones.
ghost use Rattle.std.specs.Prelude.{◌≡◌, ◌<◌, ◌≤◌, ◌*◌, ◌+◌, length};
ghost use Rattle.recovery.specs.Rebuild.{stripe_multiplier};
ghost use Rattle.rebuild.specs.Steps.{row_step, rows_written, CodeRows};

use crate::repair::Repair;

// Puts row j's coefficients in its 20 places of rows, of which the last is not used.
fn write_coefficients(rows: &mut [u8], j: usize)
    requires code_rows { CodeRows j rows.old }
    requires j_bound { (j < 4) × (length rows.old ≡ 80) }
    ensures { CodeRows (j + 1) rows.new }
{
    let mut q = [0u8; 20];
    code::coefficients::fill(&mut q, j, 0, 19);
    for c in 0..19 {
        rows[j * 20 + c] = q[c];
    }
}

// Document 01's rows, as the solver takes them.
pub fn code_rows() -> [u8; 80]
    ensures { CodeRows 4 result }
{
    let mut rows = [0u8; 80];
    for j in 0..4 {
        write_coefficients(&mut rows, j);
    }
    rows
}

impl Repair<'_> {
    // Writes row j, if it is lost.
    fn write_row(&self, stripe: &mut [u8], j: usize)
        requires { (j < 4) × (self.now.k + j < self.now.n) × (self.now.n * self.now.b ≤ length stripe.old) }
        ensures { stripe.new ≡ row_step stripe_multiplier self.now.k self.now.b self.now.losses.now j stripe.old }
    {
        if self.losses[self.k + j] == 1 {
            let m = code::multiplier(j, self.k);
            code::write_row(
                stripe,
                (self.k + j) * self.b,
                &self.at,
                self.k,
                j,
                m,
                self.b,
            );
        }
    }

    // Writes the lost rows.
    pub fn write_rows(&self, stripe: &mut [u8])
        requires { self.now.n * self.now.b ≤ length stripe.old }
        ensures { stripe.new ≡ rows_written stripe_multiplier self.now.n self.now.k self.now.b self.now.losses.now stripe.old }
    {
        for j in 0..self.n - self.k {
            self.write_row(stripe, j);
        }
    }
}
