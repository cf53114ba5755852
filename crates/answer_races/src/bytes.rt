// The bytes of Races, off the masks of a chart: its names and sets of nodes, lines from these, and all pairs by the lines.
ghost use Rattle.std.specs.Prelude.{◌≡◌, false, List, ◌++◌, ℕ, ◌≤◌, length, drop};
ghost use Rattle.lists.specs.Triangle.{pair_count};
ghost use Rattle.chart.specs.Checked.{reading};
ghost use Rattle.mark_tables.specs.Tables.{Accepted};
ghost use Rattle.answer_constructs.specs.Marks.{Marks};
ghost use Rattle.theory_calls.specs.Access.{total, bad_accesses};
ghost use Rattle.theory_calls.specs.Races.{races as races_of};

use crate::lines::fill_lines;
use crate::pairs::fill_races;
use crate::rows::Line;
use answer_constructs::mask_table::MaskTable;
use answer_names::fill_names;
use answer_nodes::{NO_SETS, NodeSets, gather_all, gather_sets};
use chart::format::Chart;
use mark_tables::closed::load_closed;

// The bytes, of a list that row 20 lets pass.
pub fn put_races(s: &[u8], chart: Chart, marks: &MaskTable, accesses: &[u8], out: &mut [u8])
    requires { Accepted s.now chart
        × ((kinds : List ℕ) × Marks (reading s.now chart) marks.now kinds)
        × (bad_accesses (reading s.now chart) accesses.now ≡ false)
        × (pair_count (total accesses.now) ≤ length out.old) }
    ensures { let result = races_of (reading s.now chart) accesses.now in
        out.new ≡ result ++ drop (length result) out.old }
{
    let mut names = [0u64; Chart::NODES];
    fill_names(s, chart, &mut names);
    let mut closed = [0u8; Chart::NODES];
    load_closed(s, chart, &mut closed);
    let mut nodes = NodeSets::NONE;
    gather_all(chart.nodes, marks, &closed, &mut nodes);
    let mut named = NO_SETS;
    gather_sets(chart.nodes, &names, &closed, &mut named);
    let mut lines = [Line::EMPTY; Chart::NODES];
    fill_lines(
        chart.nodes,
        marks,
        &names,
        &closed,
        &nodes,
        &named,
        &mut lines,
    );
    fill_races(accesses, &lines, out);
}
