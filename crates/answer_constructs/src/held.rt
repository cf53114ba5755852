// What fills the row of the masks of the constructs that each node holds.
ghost use Rattle.std.specs.Prelude.{◌≡◌, replicate};
ghost use Rattle.chart.specs.Checked.{reading};
ghost use Rattle.mark_tables.specs.Tables.{Accepted, Returned};
ghost use Rattle.answer_constructs.specs.Marks.{Kinds};
ghost use Rattle.answer_constructs.specs.Below.{HeldBelow};

use crate::chains::fill_chains;
use crate::kinds::{KindTable, kinds_of};
use crate::places::lay_out;
use chart::format::Chart;

// What each node of an accepted chart holds, where nothing is written before, given which constructs return; and the constructs
// of each rule's kind.
pub fn fill_held(
    s: &[u8],
    chart: Chart,
    returning: u64,
    held: &mut [u64; Chart::NODES],
) -> KindTable
    requires { Accepted s.now chart × Returned (reading s.now chart) returning × (held.old ≡ replicate 192 0) }
    ensures kinds { Kinds (reading s.now chart) result }
    ensures held_below { HeldBelow (reading s.now chart) chart.nodes held.new }
{
    let kinds = kinds_of(s, chart);
    if chart.constructs == 0 {
        return kinds;
    }
    let [masters, _, _, sections] = kinds;
    let mut chains = [0u64; Chart::CONSTRUCTS];
    fill_chains(s, chart, returning, masters, &mut chains);
    lay_out(s, chart, &chains, sections, held);
    kinds
}
