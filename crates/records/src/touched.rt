// The tests of a single word that a call touches: its kind, and that no unnamed bit is set.
ghost use Rattle.std.specs.Prelude.{◌≡◌, ◌^◌, ◌≤◌};
ghost use Rattle.layout.specs.Counts.{transfers};
ghost use Rattle.records.specs.Conditions.{accepted_ok, progress_ok};

use crate::marks::power;
use counts::transfer_count;
use layout::Layout;
use wire::words::kind_of;

// 2 to the power of a stripe's transfers: what their bits stay below.
pub fn mark_room(z: Layout) -> u32
    ensures { (result ≡ 2 ^ transfers z.shape) × (1 ≤ result) × (result ≤ 262144) }
{
    power(transfer_count(z) as u32)
}

// Kind 10.
#[tactic(auto, using(crate::proofs::WordTests::accepted_number))]
pub fn accepted_ok(z: Layout, x: u32) -> bool
    ensures { result ≡ accepted_ok z.shape x }
{
    kind_of(x) == 10 && x % 268435456 < mark_room(z)
}

// Kind 11; bits 26 and 27 have names of their own.
#[tactic(auto, using(crate::proofs::WordTests::sent_number))]
pub fn progress_ok(z: Layout, x: u32) -> bool
    ensures { result ≡ progress_ok z.shape x }
{
    kind_of(x) == 11 && x % 67108864 < mark_room(z)
}
