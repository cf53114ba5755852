// Sets of nodes, three words each: for each bit of the nodes' masks the nodes that have it, and the nodes that share a bit with a mask. The sheet, Races
// and Locks are read off them.
#![tactic(auto)]

ghost use Rattle.std.specs.Prelude.{◌≡◌, List, ℕ, replicate};
ghost use Rattle.answer_nodes.specs.Gathered.{Past, RowsPast};
ghost use Rattle.answer_nodes.specs.NodeSets.{ByBit, InSets, Sharing};

use crate::sets::gather;
use answer_constructs::mask_table::MaskTable;
use chart::format::Chart;
use masks::unions::{BITS, Words, join};

pub mod sets;

// For each bit of a mask the nodes that have it, 64 nodes a word.
pub type BitSets = [[u64; BITS]; THIRDS];

pub const THIRDS: usize = 3;

// No node has any bit.
pub const NO_SETS: BitSets = [[0; BITS]; THIRDS];

// These sets of each kind of masks. They are large, so the calls lend them and copy none.
#[derive(Clone, Copy)]
pub struct NodeSets {
    pub starts: BitSets,
    pub ends: BitSets,
    pub held: BitSets,
}

impl NodeSets {
    pub const NONE: NodeSets = NodeSets {
        starts: NO_SETS,
        ends: NO_SETS,
        held: NO_SETS,
    };
}

// The sets of masks of n nodes, those of closed nodes left out.
pub fn gather_sets(
    n: usize,
    masks: &[u64; Chart::NODES],
    closed: &[u8; Chart::NODES],
    sets: &mut BitSets,
)
    requires { Past n masks.now × (sets.old ≡ replicate 3 (replicate 64 0)) }
    ensures { ByBit closed.now masks.now sets.new }
{
    for w in 0..THIRDS {
        gather(masks, closed, 64 * w, n, &mut sets[w]);
    }
}

// Those of each kind of masks.
pub fn gather_all(n: usize, marks: &MaskTable, closed: &[u8; Chart::NODES], nodes: &mut NodeSets)
    requires { RowsPast n marks.now × (nodes.old ≡ NodeSets.NONE) }
    ensures { InSets closed.now marks.now nodes.new }
{
    gather_sets(n, &marks.starts, closed, &mut nodes.starts);
    gather_sets(n, &marks.ends, closed, &mut nodes.ends);
    gather_sets(n, &marks.held, closed, &mut nodes.held);
}

// The nodes that are not closed and share a bit with the mask, by the sets of the nodes' masks.
pub fn sharing(mask: u64, sets: &BitSets) -> Words
    ensures { (closed masks : List ℕ) → ByBit closed masks sets.now → Sharing closed masks mask result }
{
    join(mask, &sets[0], &sets[1], &sets[2])
}
