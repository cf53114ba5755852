// The edges of a region, in one pass from the bytes to all rows of their table: where they come from, where they lead, and parted by the stops.
ghost use Rattle.std.specs.Prelude.{◌≡◌, Bool, cond, ℕ, ◌<◌};
ghost use Rattle.chart.specs.Format.{decode, edge_at};
ghost use Rattle.theory_paths.specs.Cut.{keeps};
ghost use Rattle.search.specs.Parts.{Split, Sized, Next};
ghost use Rattle.mark_tables.specs.Tables.{Accepted, Blank, Tabled, StoredIn};

use crate::cut::leaving;
use chart::format::{Chart, Edge};
use search::edges::{Parts, place};

// How many edges a region has, and their parts.
#[derive(Clone, Copy)]
pub struct Loaded {
    pub edges: usize,
    pub parts: Parts,
}

// One edge more: where it is kept, it is the next of the table.
fn keep(
    kept: bool,
    edge: Edge,
    stops: &[u8; Chart::NODES],
    table: &mut [[u8; Chart::EDGES]; Parts::ROWS],
    loaded: Loaded,
) -> Loaded
    requires { Next table.old loaded.edges stops.now loaded.parts edge.from edge.to }
    ensures split { Split table.new result.edges stops.now result.parts × Sized table.new }
    ensures stored_in { StoredIn (cond kept 1 0) edge.from edge.to table.old loaded.edges table.new result.edges }
{
    if kept {
        let edges = loaded.edges;
        let parts = place(edge.from, edge.to, stops, table, edges, loaded.parts);
        Loaded {
            edges: edges + 1,
            parts,
        }
    } else {
        loaded
    }
}

// The edges that leave nodes whose edges are the region's, as `leaves` tells.
fn take_edges<F: Fn(u8) -> bool>(
    s: &[u8],
    chart: Chart,
    stops: &[u8; Chart::NODES],
    table: &mut [[u8; Chart::EDGES]; Parts::ROWS],
    leaves: F,
) -> Loaded
    requires accepted { Accepted s.now chart × Blank table.old }
    requires callable { (x : ℕ) → x < 192 → F.pre leaves x }
    requires keeps { (n : ℕ) (r : Bool) → F.post leaves (edge_at (decode s.now).edges n).from r → r ≡ keeps (decode s.now) chart.region n }
    ensures tabled { Tabled chart.region (decode s.now) stops.now table.new result.edges result.parts }
    ensures sized { Sized table.new }
{
    let mut loaded = Loaded {
        edges: 0,
        parts: Parts::NONE,
    };
    for i in 0..chart.edges {
        let edge = Edge::read(s, chart, i);
        loaded = keep(leaves(edge.from), edge, stops, table, loaded);
    }
    loaded
}

// The edges of any region: those of the outermost one are all.
pub fn load_edges(
    s: &[u8],
    chart: Chart,
    stops: &[u8; Chart::NODES],
    table: &mut [[u8; Chart::EDGES]; Parts::ROWS],
) -> Loaded
    requires { Accepted s.now chart × Blank table.old }
    ensures tabled { Tabled chart.region (decode s.now) stops.now table.new result.edges result.parts }
    ensures sized { Sized table.new }
{
    if chart.region == Chart::OUTERMOST {
        return take_edges(s, chart, stops, table, |_| true);
    }
    let mut flags = [0u8; Chart::NODES];
    leaving(s, chart, &mut flags);
    take_edges(s, chart, stops, table, |x| flags[x as usize] != 0)
}
