// The marking of a region's nodes: starts, ends and levels (`boundaries`), row 10 off them (`joining`), and the constructs that return (`returns`).
// What these are is in crate `theory_paths`; the functions here find it, by the search of crate `search`.
#![tactic(auto)]

pub mod boundaries;
pub mod joining;
pub mod returns;
