// Coefficients that go up by a constant small factor: which they are, and Horner's rule for each of the five factors.
#![tactic(auto)]

pub mod horner;
pub mod ratio;
pub mod scaling;
