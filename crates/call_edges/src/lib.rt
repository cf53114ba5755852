// An edge tried, put in, and taken out.
#![tactic(auto)]

pub mod ask;
pub mod checking;
pub mod insert;
pub mod numbers;
pub mod remove;
pub mod splice;
