// Refusals 1 to 9 of a chart, each row over the whole chart before the next. `check::check` takes any bytes; its contract cites `checked` of
// crate `chart`.
#![tactic(auto)]

pub mod check;
