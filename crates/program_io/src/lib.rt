// What the programs read and print.
#![tactic(auto)]

pub mod input;
pub mod lines;
pub mod printing;
