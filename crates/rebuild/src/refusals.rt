// What refuses a rebuild before its blocks are looked at.
ghost use Rattle.std.specs.Prelude.{◌≡◌, ◌≤◌, length};
ghost use Rattle.base.specs.Tests.{every};
ghost use Rattle.answer.specs.Numbers.{refusal_number};
ghost use Rattle.recovery.specs.Rebuild.{is_flag, within_ranges, rebuild_refusal};

use answer::Refusal;

// Whether the numbers of a stripe are within their ranges.
fn within_ranges(n: usize, k: usize, b: usize) -> bool
    ensures { result ≡ within_ranges n k b }
{
    k >= 1 && n > k && n <= 20 && n - k <= 4 && b >= 1 && b <= 4096
}

// Whether each loss byte is 0 or 1.
fn flags_hold(losses: &[u8], n: usize) -> bool
    requires { n ≤ length losses.now }
    ensures { result ≡ every n (is_flag losses.now) }
{
    for p in 0..n {
        if losses[p] > 1 {
            return false;
        }
    }
    true
}

// The refusals that need no look at the blocks.
#[tactic(auto, unfolding(recovery::specs::Rebuild::rebuild_refusal))]
pub fn check_rebuild(n: usize, k: usize, b: usize, len: usize, losses: &[u8]) -> Result<(), Refusal>
    ensures { refusal_number result ≡ rebuild_refusal n k b len losses.now }
{
    if !within_ranges(n, k, b) {
        return Err(Refusal::Shape);
    }
    if len != n * b {
        return Err(Refusal::Length);
    }
    if losses.len() != n {
        return Err(Refusal::Length);
    }
    if !flags_hold(losses, n) {
        return Err(Refusal::OutOfRange);
    }
    Ok(())
}
