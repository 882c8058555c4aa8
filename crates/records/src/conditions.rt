// The conditions on one stripe's pair of words, each by arithmetic on the whole words.
ghost use Rattle.std.specs.Prelude.{◌≡◌, true, ◌≤◌};
ghost use Rattle.base.specs.Tests.{only_if, every};
ghost use Rattle.layout.specs.Counts.{transfers};
ghost use Rattle.records.specs.Records.{is_accepted, is_receipted, is_computed, is_released};
ghost use Rattle.records.specs.Conditions.{accepted_ok, progress_ok, record_ok};
ghost use Rattle.records.specs.Stages.{accepted_count};

use crate::StripeRecord;
use crate::touched::{accepted_ok, mark_room, progress_ok};
use layout::Layout;

fn receipted_within_accepted(z: Layout, r: StripeRecord) -> bool
    requires progress_value { progress_ok z.shape r.progress ≡ true }
    ensures { result ≡ every (transfers z.shape) (λ e. only_if (is_receipted r e) (is_accepted r e)) }
{
    let receipted = r.progress % 67108864;
    receipted & (r.accepted % 268435456) == receipted
}

fn accepted_only_if_computed(z: Layout, r: StripeRecord) -> bool
    requires accepted_value { accepted_ok z.shape r.accepted ≡ true }
    ensures { result ≡ every (transfers z.shape) (λ e. only_if (is_accepted r e) (is_computed r)) }
{
    let accepted = r.accepted % 268435456;
    accepted == 0 || r.is_computed()
}

#[tactic(auto, using(crate::proofs::WordTests::receipted_test))]
fn released_only_if_receipted(z: Layout, r: StripeRecord) -> bool
    requires progress_value { progress_ok z.shape r.progress ≡ true }
    ensures { result ≡ only_if (is_released r) (every (transfers z.shape) (is_receipted r)) }
{
    !r.is_released() || r.progress % 67108864 + 1 == mark_room(z)
}

// Both words of their kinds, and every condition between them.
#[tactic(auto, unfolding(crate::specs::Conditions::record_ok))]
pub fn record_ok(z: Layout, r: StripeRecord) -> bool
    ensures { result ≡ record_ok z.shape r }
{
    accepted_ok(z, r.accepted)
        && progress_ok(z, r.progress)
        && receipted_within_accepted(z, r)
        && accepted_only_if_computed(z, r)
        && released_only_if_receipted(z, r)
}

// How many transfers of a stripe are marked as accepted.
pub fn accepted_count(z: Layout, r: StripeRecord) -> usize
    requires accepted_value { accepted_ok z.shape r.accepted ≡ true }
    ensures { (result ≡ accepted_count z.shape r) × (result ≤ 28) }
{
    u32::count_ones(r.accepted % 268435456) as usize
}
