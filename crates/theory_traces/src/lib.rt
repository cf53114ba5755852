// The replay of a recorded run (02, Note 11), as definitions (specs/). What a reader must believe: Legal, which entries of a trace the team rules allow;
// Correct, what the call promises by it. What is computed: Tests and Decide, the rules as a decision; Replay, entry after entry; Call, over bytes.
// The laws: the decision is the rules, both ways; a trace is a run, and every run has a trace; the call is correct, and nothing else is.
#![tactic(auto)]

use chart::format::Chart;

// What an entry does to the state, its thread and its node being known.
#[derive(Clone, Copy)]
pub enum Effect {
    // the team rules forbid it
    None,
    // the thread moves on
    Moves,
    // it leaves the begin of a construct
    Leaves(usize),
    // it leaves the begin of a sections construct and takes a section of it
    Takes(usize, usize),
    // at the end of a sections construct it takes another section of it
    TakesNext(usize, usize),
}

// What a replay answers where no row refuses it.
#[derive(Clone, Copy)]
pub enum Replayed {
    Finished,
    Unfinished,
    // the index of the first entry that the team rules forbid
    Forbidden(usize),
}

// The record of a thread.
#[derive(Clone, Copy)]
pub struct Thread {
    pub node: u8,
    // for each construct, how often the thread has left its begin
    pub counts: [u64; Chart::CONSTRUCTS],
    // for each sections construct, the mask of the sections taken
    pub taken: [u64; Chart::CONSTRUCTS],
}

impl Thread {
    // Records that a team may have.
    pub const MOST: usize = 8;
}
