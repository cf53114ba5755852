// The byte format of a chart: its limits, its records and where they stand. The format's meaning, the refusals and the region that a
// chart is read as are definitions, in specs/; that an accepted chart gives a well-formed region is shown in proofs/.
#![tactic(auto)]

pub mod cursor;
pub mod format;
