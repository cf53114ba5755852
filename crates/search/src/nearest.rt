// The fewest edges on a path from any source: by sweeps, or where these are many or long by one search.
ghost use Rattle.std.specs.Prelude.{◌≡◌, true, List, ℕ, ◌≤◌, ◌<◌, get_or, length};
ghost use Rattle.search.specs.Levels.{Each, Begins};
ghost use Rattle.search.specs.Search.{Ready};
ghost use Rattle.search.specs.Promises.{Table, Sweeps, Searches, Measures};

use crate::breadth::search;
use crate::edges::{Extent, Parts};
use crate::levels::measure;
use crate::sources::{MOST_SOURCES, mark};
use crate::telling::tell;
use chart::format::Chart;

// The levels of the nodes that may be passed, from those of the nodes to which the sources' edges lead; whether a few sweeps find them.
fn swept(
    edges: &[[u8; Chart::EDGES]; Parts::ROWS],
    parts: Parts,
    levels: &mut [u8; Chart::NODES],
) -> bool
    requires table { Table edges.now parts }
    requires by_index { (masks : List ℕ) × Each Begins masks levels.old }
    ensures { result ≡ true → Sweeps edges.now parts levels.old levels.new }
{
    let settled = measure(
        &edges[Parts::PLAIN_FROM],
        &edges[Parts::PLAIN_TO],
        parts.ups,
        parts.low,
        levels,
    );
    tell(levels);
    settled
}

// The same by one search.
pub fn searched(
    edges: &[[u8; Chart::EDGES]; Parts::ROWS],
    places: &[usize; Chart::PLACES],
    nodes: &[u8],
    levels: &mut [u8; Chart::NODES],
)
    requires total_bound { (length nodes.now ≤ 64) × ((parts : Parts) × Ready edges.now places.now parts) }
    requires by_index { (b : ℕ) → get_or nodes.now b 0 < 192 }
    ensures { Searches edges.now places.now nodes.now (length nodes.now) levels.new }
{
    *levels = [0u8; Chart::NODES];
    mark(nodes, levels);
    search(&edges[Parts::TO], places, nodes, levels);
}

// Whether a search is the faster way: many falling edges, each of which may ask for one more sweep, and many edges to sweep for each
// source, whose edges a search meets one source after the other.
fn far(parts: Parts, total: usize) -> bool
    requires { (parts.ups ≤ 1024) × (parts.low ≤ 1024) × (total ≤ 64) }
{
    let falling = Chart::EDGES - parts.low;
    64 < falling && 8 * total < parts.ups + falling
}

pub fn fewest(
    edges: &[[u8; Chart::EDGES]; Parts::ROWS],
    places: &[usize; Chart::PLACES],
    extent: Extent,
    nodes: &[u8; MOST_SOURCES],
    levels: &mut [u8; Chart::NODES],
)
    requires barriers_bound { (extent.barriers ≤ 64) × Ready edges.now places.now extent.parts }
    requires by_index { (b : ℕ) → get_or nodes.now b 0 < 192 }
    requires by_index_2 { (masks : List ℕ) × Each Begins masks levels.old }
    ensures { Measures edges.now places.now extent.parts nodes.now extent.barriers levels.old levels.new }
{
    if far(extent.parts, extent.barriers) || !swept(edges, extent.parts, levels) {
        searched(edges, places, &nodes[..extent.barriers], levels);
    }
}
