// Whether any data agree: the checks, combinations of the present blocks that must vanish.
ghost use Rattle.std.specs.Prelude.{◌≡◌, ◌≤◌, ◌*◌, length};
ghost use Rattle.combine.specs.Columns.{combined, Inside};
ghost use Rattle.area.specs.Area.{zeros, same_bytes};
ghost use Rattle.rebuild.specs.Steps.{combined_blocks, checks_by};

use crate::repair::Repair;

// Whether all bytes of x are zero. Every byte is looked at: a loop that leaves early does not vectorise.
fn is_zero(x: &[u8]) -> bool
    ensures { result ≡ same_bytes (zeros (length x.now)) x.now }
{
    let mut any: u8 = 0;
    for byte in x {
        any |= *byte;
    }
    any == 0
}

// Whether the combination of n blocks of the stripe with the coefficients in u is zero. It is summed in `sum`, a block long.
fn sum_is_zero(sum: &mut [u8], stripe: &[u8], at: &[usize; 20], u: &[u8; 20], n: usize) -> bool
    requires { Inside at.now n (length sum.old) stripe.now }
    ensures { result ≡ same_bytes (zeros (length sum.old))
        (combined (length sum.old) n u.now at.now stripe.now) }
{
    combine::combine(sum, stripe, at, u, n);
    is_zero(sum)
}

impl Repair<'_> {
    // Whether the combination of the stripe's n blocks with the coefficients in u is zero. Where all coefficients are zero nothing
    // is summed; else the combination is summed in a scratch block.
    fn vanishes(&self, stripe: &[u8], u: &[u8; 20]) -> bool
        requires { self.now.n * self.now.b ≤ length stripe.now }
        ensures { result ≡ same_bytes (zeros self.now.b) (combined_blocks self.now.b self.now.n u.now stripe.now) }
    {
        if is_zero(u) {
            return true;
        }
        if self.b <= 256 {
            let mut sum = area::small();
            return sum_is_zero(&mut sum[..self.b], stripe, &self.at, u, self.n);
        }
        let mut sum = area::scratch();
        sum_is_zero(&mut sum[..self.b], stripe, &self.at, u, self.n)
    }

    // Whether all checks vanish.
    pub fn checks_hold(&self, stripe: &[u8], w: &[u8; 80], pivots: &[Option<usize>; 4]) -> bool
        requires { self.now.n * self.now.b ≤ length stripe.now }
        ensures { result ≡ checks_by self.now.n self.now.b pivots.now w.now stripe.now }
    {
        for i in 0..4 {
            let u = solver::check(w, pivots, i);
            if !self.vanishes(stripe, &u) {
                return false;
            }
        }
        true
    }
}
