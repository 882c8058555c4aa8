// The record of a stripe: its pair of words, by value. Each step hands the new record back, and its stage moves only forward:
// fresh, computed, released.
#![tactic(auto)]

pub mod conditions;
pub mod marks;
pub mod touched;

ghost use Rattle.std.specs.Prelude.{◌≡◌, ◌<◌};
ghost use Rattle.records.specs.Records.{is_accepted, is_receipted, is_computed, is_released, accept, receipt, compute, release};

use marks::{has_bit, with_bit};

// Kind 10, the receivers' bits, and kind 11, the sender's.
#[derive(Clone, Copy)]
pub struct StripeRecord {
    pub accepted: u32,
    pub progress: u32,
}

impl StripeRecord {
    #[tactic(auto, unfolding(crate::specs::Records::is_accepted))]
    pub fn is_accepted(self, e: u32) -> bool
        requires { e < 32 }
        ensures { result ≡ is_accepted self e }
    {
        has_bit(self.accepted, e)
    }

    #[tactic(auto, unfolding(crate::specs::Records::is_receipted))]
    pub fn is_receipted(self, e: u32) -> bool
        requires { e < 32 }
        ensures { result ≡ is_receipted self e }
    {
        has_bit(self.progress, e)
    }

    #[tactic(auto, unfolding(crate::specs::Records::is_computed))]
    pub fn is_computed(self) -> bool
        ensures { result ≡ is_computed self }
    {
        has_bit(self.progress, 26)
    }

    #[tactic(auto, unfolding(crate::specs::Records::is_released))]
    pub fn is_released(self) -> bool
        ensures { result ≡ is_released self }
    {
        has_bit(self.progress, 27)
    }

    // Transfer e was accepted by its receiver.
    #[tactic(auto, unfolding(crate::specs::Records::accept))]
    pub fn accept(self, e: u32) -> StripeRecord
        requires { e < 32 }
        ensures { result ≡ accept self e }
    {
        StripeRecord {
            accepted: with_bit(self.accepted, e),
            ..self
        }
    }

    // The sender has transfer e's receipt.
    #[tactic(auto, unfolding(crate::specs::Records::receipt))]
    pub fn receipt(self, e: u32) -> StripeRecord
        requires { e < 32 }
        ensures { result ≡ receipt self e }
    {
        StripeRecord {
            progress: with_bit(self.progress, e),
            ..self
        }
    }

    // Row 0 has its delta.
    #[tactic(auto, unfolding(crate::specs::Records::compute))]
    pub fn compute(self) -> StripeRecord
        ensures { result ≡ compute self }
    {
        StripeRecord {
            progress: with_bit(self.progress, 26),
            ..self
        }
    }

    // The new blocks' first places are given up.
    #[tactic(auto, unfolding(crate::specs::Records::release))]
    pub fn release(self) -> StripeRecord
        ensures { result ≡ release self }
    {
        StripeRecord {
            progress: with_bit(self.progress, 27),
            ..self
        }
    }
}
