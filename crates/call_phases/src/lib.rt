// Phases, as a call on slices.
#![tactic(auto)]

pub mod bytes;
pub mod fill;
pub mod writing;
