// Masks of bits: one word, and several.
#![tactic(auto)]

pub mod bits;
pub mod unions;
