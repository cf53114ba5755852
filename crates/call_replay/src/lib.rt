// The replay of a recorded run (02, Note 11). By value (`run`): what the trace leads to, in a `Team`, and the pairs met, in a lent buffer. Over
// records that the caller lends (`lent`): the call, which stores what `run` gives.
#![tactic(auto)]

pub mod feed;
pub mod lent;
pub mod pairs_met;
pub mod play;
pub mod records;
pub mod rows;
pub mod run;
pub mod start;
