// Rows 1 to 10 of the refusals over any bytes, with the counts of a chart that none of them refuses (`admit`), and the phase count (`count`).
#![tactic(auto)]

pub mod admit;
pub mod count;
