// The words of 32 bits: made from their fields, and taken apart.
ghost use Rattle.std.specs.Prelude.{◌≡◌, ◌<◌};
ghost use Rattle.layout.specs.Counts.{transfers};
ghost use Rattle.layout.specs.Transfers.{sender, receiver};
ghost use Rattle.places.specs.Kinds.{kind_number};
ghost use Rattle.wire.specs.Words.{stripe_word, route_word, size_word, growth_word, kind_of, rest_of};

use layout::Layout;
use places::kinds::Kind;
use places::transfers::{receiver_of, sender_of};

// Bits 31 to 28.
pub fn kind_of(x: u32) -> usize
    ensures { result ≡ kind_of x }
{
    x as usize / 268435456
}

// Bits 27 to 0.
pub fn rest_of(x: u32) -> usize
    ensures { (result ≡ rest_of x) × (result < 268435456) }
{
    x as usize % 268435456
}

// A first word of any kind.
#[tactic(auto, unfolding(crate::specs::Words::stripe_word))]
pub fn numbered_word(kind: usize, w: usize) -> u32
    requires { (kind < 16) × (w < 268435456) }
    ensures { result ≡ stripe_word kind w }
{
    (kind * 268435456 + w) as u32
}

// Kinds 1 to 4.
pub fn stripe_word(kind: Kind, w: usize) -> u32
    requires { w < 268435456 }
    ensures { result ≡ stripe_word (kind_number kind) w }
{
    numbered_word(kind as usize, w)
}

// Kind 5, for transfer e of stripe w.
#[tactic(auto, unfolding(crate::specs::Words::route_word, layout::specs::Counts::transfers))]
pub fn route_word(z: Layout, w: usize, e: usize) -> u32
    requires w_bound { (w < 268435456) × (e < transfers z.shape) }
    ensures { result ≡ route_word (sender z.shape w) (receiver z.shape w e) e }
{
    (1342177280 + sender_of(z, w) * 1048576 + receiver_of(z, w, e) * 4096 + e * 16) as u32
}

// Kind 8: made and tested by this alone, in the journal and in messages.
#[tactic(auto, unfolding(crate::specs::Words::size_word))]
pub fn size_word(z: Layout) -> u32
    ensures { result ≡ size_word z.shape }
{
    (2147483648 + z.shape.b) as u32
}

// Kind 9.
#[tactic(auto, unfolding(crate::specs::Words::growth_word))]
pub fn growth_word(number: usize) -> u32
    requires { number < 268435456 }
    ensures { result ≡ growth_word number }
{
    (2415919104 + number) as u32
}
