// Judge, of one list and of two, as calls on slices.
#![tactic(auto)]

pub mod judge;
pub mod number;
pub mod parts;
pub mod two;
