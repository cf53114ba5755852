// Row 6 of the refusals, over the constructs.
#![tactic(auto)]

pub mod alone;
pub mod enclosing;
pub mod kinds;
pub mod nesting;
pub mod stray;
