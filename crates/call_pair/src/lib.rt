// Pair, as a call on a slice. What it answers is in crate `theory_calls`, specs/Pair.antt.
#![tactic(auto)]

pub mod pair;
