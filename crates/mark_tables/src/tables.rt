// The table of the edges for all searches: the places where the edges of each node begin, and the edges parted by the stops.
ghost use Rattle.std.specs.Prelude.{◌≡◌, List, ℕ, ◌≤◌, ◌<◌, get_or, length, replicate};
ghost use Rattle.theory_paths.specs.Graph.{Rising, Places};
ghost use Rattle.search.specs.Parts.{row, Sized};
ghost use Rattle.chart.specs.Format.{Edge, decode};
ghost use Rattle.chart.specs.Checked.{reading};
ghost use Rattle.mark_tables.specs.Tables.{Accepted, Columns, FirstEdges, Blank, Arranged, Handed, Stops, Barriers};

use crate::fill::load_edges;
use crate::load::{barriers, load_stops};
use chart::format::Chart;
use search::edges::{Extent, Parts};
use search::places::places_rising;

// The places of all nodes of a region, before anything of it is marked.
fn find_places(
    table: &[[u8; Chart::EDGES]; Parts::ROWS],
    e: usize,
    places: &mut [usize; Chart::PLACES],
)
    requires e_bound { (e ≤ 1024) × Rising (row table.now 0) e × Sized table.now × ((j : ℕ) → get_or (row table.now 0) j 0 < 192) }
    requires places_value { places.old ≡ replicate 193 0 }
    ensures places { Places (row table.now 0) e places.new }
    ensures first_edges { (edges : List Edge) → Columns edges (row table.now 0) (row table.now 1) → e ≡ length edges → FirstEdges edges places.new }
{
    places_rising(&table[Parts::FROM][..e], places);
}

// What the searches work on: stops and barriers, the edges parted by the stops, and the places.
pub fn load_tables(
    s: &[u8],
    chart: Chart,
    table: &mut [[u8; Chart::EDGES]; Parts::ROWS],
    places: &mut [usize; Chart::PLACES],
    stops: &mut [u8; Chart::NODES],
    nodes: &mut [u8; Chart::BARRIERS],
) -> Extent
    requires { Accepted s.now chart × Blank table.old × (places.old ≡ replicate 193 0) }
    ensures arranged { Arranged (reading s.now chart) table.new places.new stops.new result.parts }
    ensures handed { Handed chart.region (decode s.now) table.new places.new result.parts }
    ensures stops { Stops (reading s.now chart) stops.new × Barriers (reading s.now chart) nodes.new result.barriers
        × (result.nodes ≡ chart.nodes) × (result.total ≡ result.barriers) }
{
    load_stops(s, chart, stops);
    let barriers = barriers(s, chart, stops, nodes);
    let loaded = load_edges(s, chart, stops, table);
    find_places(table, loaded.edges, places);
    Extent {
        barriers,
        total: barriers,
        nodes: chart.nodes,
        parts: loaded.parts,
    }
}
