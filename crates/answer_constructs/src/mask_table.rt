// The masks of a region.
use crate::kinds::{KindTable, RULES};
use chart::format::Chart;

// What the pair rules read of a region: of each node, by its number, its starts, its ends and the constructs that it holds, and the constructs of
// each rule's kind. The tables are large, so the calls lend them and copy none.
#[derive(Clone, Copy)]
pub struct MaskTable {
    pub starts: [u64; Chart::NODES],
    pub ends: [u64; Chart::NODES],
    pub held: [u64; Chart::NODES],
    pub kinds: KindTable,
}

impl MaskTable {
    // Nothing is known yet.
    pub const NONE: MaskTable = MaskTable {
        starts: [0; Chart::NODES],
        ends: [0; Chart::NODES],
        held: [0; Chart::NODES],
        kinds: [0; RULES],
    };
}
