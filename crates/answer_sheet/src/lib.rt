// The sheet, row by row.
#![tactic(auto)]

pub mod eights;
pub mod rows;
pub mod sheet;
