// Lists of claims.
#![tactic(auto)]

pub mod list;
pub mod numbers;
