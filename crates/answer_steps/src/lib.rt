// The steps of a replay: the table of a region, read off the chart once, before the first entry of a trace (`fill`, with `columns`, `children` and `edges`);
// the team rules as a decision over that table and a team's (`decide`, over `tests`); and what a step does to the team (`effects`).
#![tactic(auto)]

pub mod children;
pub mod columns;
pub mod decide;
pub mod edges;
pub mod effects;
pub mod fill;
pub mod tables;
pub mod tests;
