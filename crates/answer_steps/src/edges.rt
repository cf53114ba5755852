// The edges, as masks of the nodes that they lead to.
ghost use Rattle.std.specs.Prelude.{◌≡◌, ℕ, ◌≤◌, ◌<◌, length, get_or};
ghost use Rattle.chart.specs.Checked.{reading};
ghost use Rattle.search.specs.Parts.{row};
ghost use Rattle.mark_tables.specs.Tables.{Accepted};
ghost use Rattle.answer_steps.specs.Tables.{Leads};
ghost use Rattle.answer_steps.specs.Words.{Beside, Nodes, Marked};

use crate::tables::{RegionTable, WORDS};
use chart::format::Chart;
use mark_tables::fill::load_edges;
use masks::bits::bit;
use search::edges::Parts;

// Each of the first n edges, marked.
fn mark_edges(edges: &[[u8; Chart::EDGES]; Parts::ROWS], n: usize, table: &mut RegionTable)
    requires n_bound { (n ≤ 1024) × (length edges.now ≡ 6) × (length table.old ≡ 2133) × Nodes (row edges.now 0) × Nodes (row edges.now 1) }
    requires by_index { (j : ℕ) → j < 1024 → get_or table.old j 0 ≡ 0 }
    ensures { Marked (row edges.now 0) (row edges.now 1) n table.new × Beside 0 1024 table.old table.new }
{
    for i in 0..n {
        let from = usize::from(edges[Parts::FROM][i]);
        let to = usize::from(edges[Parts::TO][i]);
        let at = WORDS * from + to / 64;
        table[at] = bit(to % 64) | table[at];
    }
}

// The region's edges, marked in a table that has none. How they are parted is of no account here, so that no stop stands.
pub fn fill_edges(s: &[u8], chart: Chart, table: &mut RegionTable)
    requires accepted { Accepted s.now chart × (length table.old ≡ 2133) }
    requires by_index { (j : ℕ) → j < 1024 → get_or table.old j 0 ≡ 0 }
    ensures { Leads (reading s.now chart).edge table.new × Beside 0 1024 table.old table.new }
{
    let mut edges = [[0u8; Chart::EDGES]; Parts::ROWS];
    let stops = [0u8; Chart::NODES];
    let loaded = load_edges(s, chart, &stops, &mut edges);
    mark_edges(&edges, loaded.edges, table);
}
