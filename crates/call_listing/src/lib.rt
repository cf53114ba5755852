// The chart of a listing, as a call on slices.
#![tactic(auto)]

pub mod drawing;
pub mod letters;
pub mod reader;
pub mod records;
pub mod tables;
