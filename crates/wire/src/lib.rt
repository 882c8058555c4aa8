// Messages and receipts: their four words, made, taken apart and written. Crate `lent` reads them from buffers of any length.
#![tactic(auto)]

pub mod bytes;
pub mod forms;
pub mod words;

ghost use Rattle.std.specs.Prelude.{◌≡◌, ◌+◌, ◌<◌, ◌≤◌, length};
ghost use Rattle.area.specs.Area.{put};
ghost use Rattle.layout.specs.Counts.{kept, transfers};
ghost use Rattle.places.specs.Kinds.{kind_number};
ghost use Rattle.wire.specs.Headers.{header_for, message_header, header_bytes, stripe_of, transfer_of, number_of, receipt_of};
ghost use Rattle.wire.specs.Claims.{Words32};

use bytes::put_word;
use layout::Layout;
use places::kinds::Kind;
use places::transfers::kind_of;
use words::{growth_word, numbered_word, rest_of, route_word, size_word, stripe_word};

// The four words that a message or a receipt starts with: a kind with the stripe; sender, receiver and transfer; the growth
// number; the block size.
#[derive(Clone, Copy, PartialEq, Eq)]
pub struct Header {
    pub stripe: u32,
    pub route: u32,
    pub growth: u32,
    pub size: u32,
}

// Writes four words from a place on.
pub fn write_header(bytes: &mut [u8], at: usize, h: Header)
    requires { at + 16 ≤ length bytes.old }
    ensures { bytes.new ≡ put bytes.old at (header_bytes h) }
{
    put_word(bytes, at, h.stripe);
    put_word(bytes, at + 4, h.route);
    put_word(bytes, at + 8, h.growth);
    put_word(bytes, at + 12, h.size);
}

// The words of transfer e of stripe w, the first of the kind that has the number given.
#[tactic(auto, using(layout::proofs::Bounds::kept_le), unfolding(crate::specs::Headers::header_for))]
pub fn numbered_header(z: Layout, kind: usize, w: usize, e: usize, number: usize) -> Header
    requires kind_bound { (kind < 16) × (w < kept z.shape) × (e < transfers z.shape) × (number < 268435456) }
    ensures { result ≡ header_for z.shape kind w e number }
{
    Header {
        stripe: numbered_word(kind, w),
        route: route_word(z, w, e),
        growth: growth_word(number),
        size: size_word(z),
    }
}

// The same of a kind.
pub fn header_for(z: Layout, kind: Kind, w: usize, e: usize, number: usize) -> Header
    requires w_bound { (w < kept z.shape) × (e < transfers z.shape) × (number < 268435456) }
    ensures { result ≡ header_for z.shape (kind_number kind) w e number }
{
    numbered_header(z, kind as usize, w, e, number)
}

// The words of the message for transfer e of stripe w.
pub fn message_header(z: Layout, w: usize, e: usize, number: usize) -> Header
    requires w_bound { (w < kept z.shape) × (e < transfers z.shape) × (number < 268435456) }
    ensures { result ≡ message_header z.shape w e number }
{
    header_for(z, kind_of(z, w, e), w, e, number)
}

// The stripe that the words name.
#[tactic(auto, unfolding(crate::specs::Headers::stripe_of))]
pub fn stripe_of(h: Header) -> usize
    ensures { (result ≡ stripe_of h) × (result < 268435456) }
{
    rest_of(h.stripe)
}

// The transfer that the words name.
#[tactic(auto, unfolding(crate::specs::Headers::transfer_of))]
pub fn transfer_of(h: Header) -> usize
    ensures { (result ≡ transfer_of h) × (result < 256) }
{
    h.route as usize / 16 % 256
}

// The growth number that the words name.
#[tactic(auto, unfolding(crate::specs::Headers::number_of))]
pub fn number_of(h: Header) -> usize
    ensures { (result ≡ number_of h) × (result < 268435456) }
{
    rest_of(h.growth)
}

// The words of the receipt for a message: a receipt's kind and the message's other three. Each fits in 32 bits.
#[tactic(auto, unfolding(crate::specs::Headers::receipt_of))]
pub fn receipt_of(h: Header) -> Header
    ensures { (result ≡ receipt_of h) × Words32 result }
{
    Header {
        stripe: stripe_word(Kind::Receipt, stripe_of(h)),
        ..h
    }
}
