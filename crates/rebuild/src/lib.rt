// Document 01's call rebuild: the lost blocks of a stripe, exactly when the present ones fix them.
#![tactic(auto)]

mod checks;
mod columns;
mod refusals;
mod repair;
mod rows;

ghost use Rattle.std.specs.Prelude.{◌≡◌, ◌<◌, ◌≤◌, ◌*◌, ◌+◌, length};
ghost use Rattle.code.specs.Rows.{coefficient};
ghost use Rattle.code.specs.Agreement.{lost_count};
ghost use Rattle.solver.specs.Solution.{solved};
ghost use Rattle.rebuild.specs.Steps.{FixingRows, all_written};
ghost use Rattle.recovery.specs.Results.{of_rebuild};
ghost use Rattle.recovery.specs.Rebuild.{Rebuilds, stripe_multiplier};

use answer::Refusal;
use refusals::check_rebuild;
use repair::Repair;
use rows::code_rows;

// How many blocks are lost.
fn lost_count(losses: &[u8], n: usize) -> usize
    requires { n ≤ length losses.now }
    ensures { result ≡ lost_count losses.now n }
{
    losses[..n].iter().filter(|loss| **loss == 1).count()
}

// The solved matrix for document 01's rows.
fn solved_matrix(n: usize, k: usize, losses: &[u8]) -> [u8; 80]
    requires { (k < n) × (n ≤ 20) × (n ≤ length losses.now) }
    ensures { result ≡ solved (coefficient stripe_multiplier) n k losses.now }
{
    solver::solve(&code_rows(), n, k, losses)
}

impl Repair<'_> {
    // Writes the lost columns, then the lost rows, and tells how many blocks are lost.
    fn write_lost(&self, stripe: &mut [u8], w: &[u8; 80], fixing: &[usize; 20]) -> usize
        requires fixing_rows { FixingRows self.now.k self.now.k self.now.losses.now w.now fixing.now }
        requires room { self.now.n * self.now.b ≤ length stripe.old }
        ensures value { result ≡ lost_count self.now.losses.now self.now.n }
        ensures stripe_after { stripe.new ≡ all_written self.now.n self.now.k self.now.b self.now.losses.now w.now stripe.old }
    {
        self.write_columns(stripe, w, fixing);
        self.write_rows(stripe);
        lost_count(self.losses, self.n)
    }
}

// Writes the lost blocks of the stripe of n blocks of b bytes, columns 0 to k - 1 and then rows, and tells how many they are.
// A loss byte is 1 for a lost block and 0 for a present one.
pub fn rebuild(
    n: usize,
    k: usize,
    b: usize,
    stripe: &mut [u8],
    losses: &[u8],
) -> Result<usize, Refusal>
    ensures { Rebuilds stripe_multiplier n k b losses.now stripe.old (of_rebuild result) stripe.new }
{
    check_rebuild(n, k, b, stripe.len(), losses)?;
    let w = solved_matrix(n, k, losses);
    let pivots = solver::pivots(&w, losses, k);
    let at = combine::offsets::consecutive(n, b);
    let repair = Repair {
        n,
        k,
        b,
        losses,
        at,
    };
    let agree = repair.checks_hold(stripe, &w, &pivots);
    let fixing = repair.fixing_rows(&w, &pivots);
    if !agree {
        return Err(Refusal::Inconsistent);
    }
    let Some(fixing) = fixing else {
        return Err(Refusal::Ambiguous);
    };
    Ok(repair.write_lost(stripe, &w, &fixing))
}
