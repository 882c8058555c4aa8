// Single bits of a word.
ghost use Rattle.std.specs.Prelude.{◌≡◌, ◌^◌, ◌<◌, ◌≤◌};
ghost use Rattle.wire.specs.Words.{bit};
ghost use Rattle.records.specs.Records.{set_bit};

// 2 to the power e.
pub fn power(e: u32) -> u32
    requires { e < 32 }
    ensures { (result ≡ 2 ^ e) × (0 < result) × (result ≤ 2147483648) }
{
    1 << e
}

// Whether bit e is set.
#[tactic(auto, unfolding(wire::specs::Words::bit))]
pub fn has_bit(x: u32, e: u32) -> bool
    requires { e < 32 }
    ensures { result ≡ bit x e }
{
    x / power(e) % 2 == 1
}

// The word with bit e set.
#[tactic(auto, using(crate::proofs::MarkLaws::set_fits), unfolding(crate::specs::Records::set_bit))]
pub fn with_bit(x: u32, e: u32) -> u32
    requires { e < 32 }
    ensures { result ≡ set_bit x e }
{
    if has_bit(x, e) { x } else { x + power(e) }
}
