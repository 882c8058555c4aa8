// Lost columns: whether the present blocks fix them, by which rows of the solved matrix, and their writing.
ghost use Rattle.std.specs.Prelude.{◌≡◌, true, false, ◌+◌, ◌<◌, ◌≤◌, ◌*◌, length, MatchOption};
ghost use Rattle.solver.specs.Solution.{Pivots};
ghost use Rattle.rebuild.specs.Steps.{column_holds, columns_hold, FixingRows, column_by, columns_written};

use crate::repair::Repair;
use solver::Column;

impl Repair<'_> {
    // Whether column c is present, or fixed. Where it is fixed the row that gives it is stored at its place in `fixing`.
    fn column_holds(
        &self,
        fixing: &mut [usize; 20],
        w: &[u8; 80],
        pivots: &[Option<usize>; 4],
        c: usize,
    ) -> bool
        requires pivots { Pivots self.now.losses.now self.now.k w.now pivots.now }
        requires fixing_rows { FixingRows c self.now.k self.now.losses.now w.now fixing.old × (c < self.now.k) }
        ensures value { result ≡ column_holds self.now.k self.now.losses.now w.now c }
        ensures rows { result ≡ true → FixingRows (c + 1) self.now.k self.now.losses.now w.now fixing.new }
    {
        if self.losses[c] == 1 {
            match solver::column_of(w, pivots, self.losses, self.k, c) {
                Column::FixedBy(row) => fixing[c] = row,
                Column::OpenBy(_) => return false,
            }
        }
        true
    }

    // The rows of the solved matrix that give the lost columns, each at the place of its column; none if a lost column is open.
    pub fn fixing_rows(&self, w: &[u8; 80], pivots: &[Option<usize>; 4]) -> Option<[usize; 20]>
        requires { Pivots self.now.losses.now self.now.k w.now pivots.now }
        ensures { MatchOption result (columns_hold self.now.k self.now.losses.now w.now ≡ false)
            (λ fixing. (columns_hold self.now.k self.now.losses.now w.now ≡ true)
            × FixingRows self.now.k self.now.k self.now.losses.now w.now fixing) }
    {
        let mut fixing = [0usize; 20];
        for c in 0..self.k {
            if !self.column_holds(&mut fixing, w, pivots, c) {
                return None;
            }
        }
        Some(fixing)
    }

    // Writes column c, if it is lost: the combination of present blocks by which row i of the solved matrix gives it.
    fn write_column(&self, stripe: &mut [u8], w: &[u8; 80], i: usize, c: usize)
        requires { (i < 4) × (c < self.now.n) × (self.now.n * self.now.b ≤ length stripe.old) }
        ensures { stripe.new ≡ column_by self.now.n self.now.b self.now.losses.now w.now i c stripe.old }
    {
        if self.losses[c] == 1 {
            let u = solver::coefficients(w, i, c);
            combine::store(stripe, c * self.b, &self.at, &u, self.n, self.b);
        }
    }

    // Writes the lost columns, each by the row that `fixing` has for it.
    pub fn write_columns(&self, stripe: &mut [u8], w: &[u8; 80], fixing: &[usize; 20])
        requires fixing_rows { FixingRows self.now.k self.now.k self.now.losses.now w.now fixing.now }
        requires room { self.now.n * self.now.b ≤ length stripe.old }
        ensures { stripe.new ≡ columns_written self.now.n self.now.k self.now.b self.now.losses.now w.now stripe.old }
    {
        for c in 0..self.k {
            self.write_column(stripe, w, fixing[c], c);
        }
    }
}
