// The bytes of a chart, written. What they are, from what the records say, and that the decoding of crate `chart` reads it back: specs/. How they
// are put one after the other: `scratch`.
#![tactic(auto)]

pub mod scratch;
