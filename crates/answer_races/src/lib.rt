// Accesses to variables, and the bytes of their pairs.
#![tactic(auto)]

pub mod bytes;
pub mod lines;
pub mod list;
pub mod pairs;
pub mod rows;
pub mod same_variable;
