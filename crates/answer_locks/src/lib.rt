// The bytes of Locks, off the masks of a chart: which nodes the team can have, the criticals that some pair of them needs, and a byte for each construct.
#![tactic(auto)]

ghost use Rattle.std.specs.Prelude.{◌≡◌, ◌++◌, ◌≤◌, length, drop};
ghost use Rattle.chart.specs.Checked.{reading};
ghost use Rattle.mark_tables.specs.Tables.{Accepted};
ghost use Rattle.answer_constructs.specs.Marks.{Marks};
ghost use Rattle.theory_calls.specs.Locks.{locks_result};

use crate::bytes::put_bytes;
use crate::fitting::close_lacking;
use crate::needed::search;
use answer_constructs::mask_table::MaskTable;
use answer_constructs::sizes::sets_for;
use answer_names::{fill_around, fill_given, spread};
use answer_nodes::{NO_SETS, NodeSets, gather_all, gather_sets};
use chart::format::{Chart, Construct};
use mark_tables::closed::load_closed;
use theory_answers::Size;

pub mod bytes;
pub mod fitting;
pub mod needed;

// The bytes fill the front of `out`, by a search over the nodes.
fn put_found(s: &[u8], chart: Chart, size: Size, marks: &MaskTable, out: &mut [u8])
    requires { Accepted s.now chart × Marks (reading s.now chart) marks.now marks.now.kinds × (chart.constructs ≤ length out.old) }
    ensures { let result = locks_result (reading s.now chart) size in
        out.new ≡ result ++ drop (length result) out.old }
{
    let mut given = [0u64; Chart::CONSTRUCTS];
    fill_given(s, chart, &mut given);
    let mut names = [0u64; Chart::NODES];
    spread(s, chart, &given, &mut names);
    let mut around = [0u64; Chart::NODES];
    let criticals = fill_around(s, chart, &given, &mut around);
    let mut closed = [0u8; Chart::NODES];
    load_closed(s, chart, &mut closed);
    let sets = sets_for(s, chart, size, &marks.kinds);
    let mut shut = [0u8; Chart::NODES];
    close_lacking(chart.nodes, marks, sets, &closed, &mut shut);
    let mut nodes = NodeSets::NONE;
    gather_all(chart.nodes, marks, &shut, &mut nodes);
    let mut named = NO_SETS;
    gather_sets(chart.nodes, &names, &shut, &mut named);
    let found = search(chart.nodes, marks, &around, &shut, &nodes, &named);
    put_bytes(chart.constructs, criticals, found.ever, found.needed, out);
}

// The same. Where the chart has no critical, none is needed, and nothing is searched.
pub fn put_locks(s: &[u8], chart: Chart, size: Size, marks: &MaskTable, out: &mut [u8])
    requires { Accepted s.now chart × Marks (reading s.now chart) marks.now marks.now.kinds × (chart.constructs ≤ length out.old) }
    ensures { let result = locks_result (reading s.now chart) size in
        out.new ≡ result ++ drop (length result) out.old }
{
    if Construct::occurs(s, chart, Construct::CRITICAL) {
        put_found(s, chart, size, marks, out);
    } else {
        put_bytes(chart.constructs, 0, 0, 0, out);
    }
}
