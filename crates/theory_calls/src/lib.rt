// What the calls answer and leave, as definitions, and what their numbers and bytes say: theory, with the types of the answers and no function.
// Demand 2, of Admit, Pair, Phases and Sheet, in paths, barriers and constructs; demand 3, of Judge, in finished runs (specs/Correct.antt); Distances
// and Races in 02's words; Locks and Witnessed in runs. Each record of correctness has its law beside it: the call's definition has it, and no other
// number and no other bytes do.
#![tactic(auto)]

// What Admit answers of a chart that it does not refuse.
#[derive(Clone, Copy)]
pub struct Counts {
    pub nodes: usize,
    pub barriers: usize,
    pub phases: usize,
}

// A byte of Distances: the fewest edges to a node from a barrier.
#[derive(Clone, Copy)]
pub struct Distance {
    pub edges: u8,
}

impl Distance {
    // for a node outside the region too
    pub const AT_BARRIER: u8 = 255;
}

// One access of a list: 4 bytes (02, Note 9).
#[derive(Clone, Copy)]
pub struct Access {
    pub node: usize,
    // 1 for a write, 0 for a read
    pub write: usize,
    pub variable: usize,
}

impl Access {
    pub const BYTES: usize = 4;
    // How many a list may have.
    pub const MOST: usize = 1024;

    pub const READ: u8 = 0;

    pub const WRITE: u8 = 1;
}

// A byte of Races: what two accesses are to each other.
#[derive(Clone, Copy)]
pub struct RaceByte {
    pub race: u8,
}

impl RaceByte {
    pub const NONE: u8 = 0;

    pub const SYNCHRONIZATION: u8 = 1;

    pub const DATA: u8 = 2;
}

// A byte of Locks: whether the lock of this critical can be dropped.
#[derive(Clone, Copy)]
pub struct LockByte {
    pub lock: u8,
}

impl LockByte {
    pub const NEEDED: u8 = 0;
    // as far as finished runs go
    pub const DROPPABLE_FINISHED: u8 = 1;
    // in every run
    pub const DROPPABLE_ALWAYS: u8 = 2;
    // the construct is no critical of the region
    pub const NO_CRITICAL: u8 = 255;
}
