// A chart with one edge more or one less (02, Notes 6 and 7): what asking, commit and removal answer, as definitions (specs/), and that putting an
// edge in and taking it out again brings back every byte.
#![tactic(auto)]

// What asking gives: the present chart's length, and the new record's place among the edges.
#[derive(Clone, Copy)]
pub struct Receipt {
    pub length: usize,
    pub place: usize,
}
