// The pair rules as common bits: the answer for two nodes from their masks (`rules`), and which numbers of nodes may be asked about
// (`numbers`).
#![tactic(auto)]

pub mod numbers;
pub mod rules;
