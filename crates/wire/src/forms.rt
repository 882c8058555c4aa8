// Whether a header is well-formed, and whom it is for.
ghost use Rattle.std.specs.Prelude.{◌≡◌, true, ◌<◌};
ghost use Rattle.places.specs.Kinds.{kind_number};
ghost use Rattle.wire.specs.Forms.{well_formed, is_message, is_receipt, for_another_node, for_another_sender};
ghost use Rattle.wire.specs.Forms.{of_another_growth};

use crate::{Header, header_for, number_of, stripe_of, transfer_of};
use counts::{kept_count, transfer_count};
use layout::Layout;
use places::kinds::Kind;
use places::transfers::{kind_of, receiver_of, sender_of};

// The words are those of the transfer that they name, the first of the kind given.
#[tactic(auto, unfolding(crate::specs::Forms::well_formed, crate::specs::Forms::same_words))]
fn well_formed(z: Layout, kind: Kind, h: Header) -> bool
    ensures { result ≡ well_formed z.shape (kind_number kind) h }
{
    let w = stripe_of(h);
    let e = transfer_of(h);
    w < kept_count(z) && e < transfer_count(z) && h == header_for(z, kind, w, e, number_of(h))
}

// The words of a message of this shape.
#[tactic(auto, unfolding(crate::specs::Forms::is_message))]
pub fn is_message(z: Layout, h: Header) -> bool
    ensures { result ≡ is_message z.shape h }
{
    well_formed(z, kind_of(z, stripe_of(h), transfer_of(h)), h)
}

// The words of a receipt of this shape.
#[tactic(auto, unfolding(crate::specs::Forms::is_receipt))]
pub fn is_receipt(z: Layout, h: Header) -> bool
    ensures { result ≡ is_receipt z.shape h }
{
    well_formed(z, Kind::Receipt, h)
}

// A well-formed message is for another node than the one given.
#[tactic(auto, unfolding(crate::specs::Forms::for_another_node))]
pub fn for_another_node(z: Layout, node: usize, h: Header) -> bool
    requires h_value { is_message z.shape h ≡ true }
    ensures { result ≡ for_another_node z.shape node h }
{
    node != receiver_of(z, stripe_of(h), transfer_of(h))
}

// A receipt is for another sender than the node given.
#[tactic(auto, unfolding(crate::specs::Forms::for_another_sender))]
pub fn for_another_sender(z: Layout, node: usize, h: Header) -> bool
    ensures { result ≡ for_another_sender z.shape node h }
{
    node != sender_of(z, stripe_of(h))
}

// The words have another growth's number than the one given.
#[tactic(auto, unfolding(crate::specs::Forms::of_another_growth))]
pub fn of_another_growth(number: usize, h: Header) -> bool
    ensures { result ≡ of_another_growth number h }
{
    number_of(h) != number
}
