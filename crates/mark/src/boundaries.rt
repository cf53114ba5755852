// The marking: the masks of the nodes in each direction, by one search from all barriers, past no barrier, and the fewest edges from a
// barrier; and whether a node is cut off. It is handed the places where the nodes' edges begin (02: Note 3) and looks none up.
ghost use Rattle.std.specs.Prelude.{◌≡◌, List, ℕ, ◌≤◌, ◌<◌, get_or, length, replicate};
ghost use Rattle.chart.specs.Format.{Decoded};
ghost use Rattle.theory_paths.specs.Phases.{forward, backward};
ghost use Rattle.mark_tables.specs.Tables.{Handed, Masks, Levels};
ghost use Rattle.mark.specs.Joined.{lost_in, TablesOf, SpreadOf};
ghost use Rattle.search.specs.Promises.{Table};

use crate::joining::{any_apart, any_missed, any_stuck};
use chart::format::Chart;
use search::edges::{Extent, Parts};
use search::search::{boundaries, reach_stops};

// Whether a node is cut off from the first barrier or from the last: the starts of all nodes tell that of the barriers in both directions, and of
// another node that it has no start, or no end. The barriers keep no start.
pub fn conclude(
    edges: &[[u8; Chart::EDGES]; Parts::ROWS],
    nodes: &[u8; Chart::BARRIERS],
    extent: Extent,
    starts: &mut [u64; Chart::NODES],
    ends: &[u64; Chart::NODES],
) -> bool
    requires barriers_bound { (extent.barriers ≤ 64) × (0 < extent.barriers) × (extent.nodes ≤ 192) × (length starts.old ≡ 192) × Table edges.now extent.parts }
    requires by_index { (b : ℕ) → get_or nodes.now b 0 < 192 }
    ensures spread_of { SpreadOf edges.now nodes.now extent starts.old ends.now (λ R. extent.nodes ≡ R.nodes → result ≡ lost_in R) }
    ensures spread_of_2 { SpreadOf edges.now nodes.now extent starts.old ends.now
        (λ R. Masks forward R starts.new × Masks backward R ends.now) }
{
    let mut all = [0u64; Chart::NODES];
    reach_stops(edges, extent, nodes, starts, &mut all);
    let apart = any_apart(&all, nodes, extent.barriers);
    let stuck = any_stuck(&all, nodes, extent.barriers);
    let unreached = apart | any_missed(starts, extent.nodes, extent.barriers);
    let unreaching = stuck | any_missed(ends, extent.nodes, extent.barriers);
    unreached | unreaching
}

// The starts with their levels and the ends, which are 0 before, and whether a node is cut off.
pub fn fill(
    edges: &[[u8; Chart::EDGES]; Parts::ROWS],
    places: &[usize; Chart::PLACES],
    nodes: &[u8; Chart::BARRIERS],
    extent: Extent,
    starts: &mut [u64; Chart::NODES],
    ends: &mut [u64; Chart::NODES],
    levels: &mut [u8; Chart::NODES],
) -> bool
    requires barriers_bound { (extent.barriers ≤ 64) × (extent.total ≡ extent.barriers) × (0 < extent.barriers) × (extent.nodes ≤ 192) × (starts.old ≡ replicate 192 0)
        × (ends.old ≡ replicate 192 0) × ((p : ℕ) × (D : Decoded) × Handed p D edges.now places.now extent.parts) }
    requires by_index { (b : ℕ) → get_or nodes.now b 0 < 192 }
    ensures by_index_2 { (stops : List ℕ) → TablesOf edges.now places.now stops nodes.now extent
        (λ R. extent.nodes ≡ R.nodes → result ≡ lost_in R) }
    ensures by_index_3 { (stops : List ℕ) → TablesOf edges.now places.now stops nodes.now extent
        (λ R. Masks forward R starts.new × Masks backward R ends.new × Levels forward R levels.new) }
{
    boundaries(edges, places, extent, nodes, starts, levels, ends);
    conclude(edges, nodes, extent, starts, ends)
}
