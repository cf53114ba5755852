// Rows 5, 7 and 8 of the refusals, over the nodes.
#![tactic(auto)]

pub mod counts;
pub mod nodes;
