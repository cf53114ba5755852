// The whole table.
ghost use Rattle.std.specs.Prelude.{◌≡◌, ◌-◌, ◌≤◌, ◌<◌, length, get_or};
ghost use Rattle.chart.specs.Format.{outside};
ghost use Rattle.chart.specs.Checked.{reading};
ghost use Rattle.mark_tables.specs.Tables.{Accepted};
ghost use Rattle.answer_steps.specs.Tables.{Tabled};
ghost use Rattle.answer_steps.specs.Words.{Nodes, terminal_at, Beside};

use crate::children::fill_children;
use crate::columns::{fill_above, fill_constructs, fill_nodes};
use crate::edges::fill_edges;
use crate::tables::{CONSTRUCTS, FINISH, MEMBERS, NODES, REGION, RegionTable, START};
use answer_constructs::members::members_of;
use chart::format::{Chart, Frames, Framing};
use mark_tables::load::frames;

// A barrier at which the team begins or ends: of the outermost region `outer`, of a parallel's region its frame.
fn terminal_of(chart: Chart, outer: usize, frames: &Frames) -> u64
    requires { ((chart.region ≡ outside → ⊥) → chart.region < 64) × Nodes frames.now }
    ensures { result ≡ terminal_at chart.region outer frames.now }
{
    let region = chart.region;
    if region == Chart::OUTERMOST {
        return outer as u64;
    }
    frames[region] as u64
}

// The single numbers.
fn put_numbers(chart: Chart, members: u64, framing: &Framing, table: &mut RegionTable)
    requires { (1 ≤ chart.nodes) × ((chart.region ≡ outside → ⊥) → chart.region < 64) × (length table.old ≡ 2133) × Nodes framing.now.begins × Nodes framing.now.ends }
    ensures table_after { (get_or table.new 2032 0 ≡ members) × (get_or table.new 2033 0 ≡ chart.constructs) × (get_or table.new 2036 0 ≡ chart.nodes) }
    ensures fact { let start = terminal_at chart.region 0 framing.now.begins in
        let finish = terminal_at chart.region (chart.nodes - 1) framing.now.ends in
        (get_or table.new 2034 0 ≡ start) × (get_or table.new 2035 0 ≡ finish) }
    ensures beside { Beside 2032 2037 table.old table.new }
{
    table[MEMBERS] = members;
    table[CONSTRUCTS] = chart.constructs as u64;
    table[START] = terminal_of(chart, 0, &framing.begins);
    table[FINISH] = terminal_of(chart, chart.nodes - 1, &framing.ends);
    table[NODES] = chart.nodes as u64;
}

// The table of the region that a chart is read for.
pub fn fill_table(s: &[u8], chart: Chart, table: &mut RegionTable)
    requires { Accepted s.now chart }
    ensures { Tabled (reading s.now chart) table.new }
{
    *table = [0u64; REGION];
    let members = members_of(s, chart);
    let mut above = [0u64; Chart::CONSTRUCTS];
    fill_above(s, chart, &mut above);
    fill_nodes(s, chart, members, &above, 0, table);
    fill_nodes(s, chart, members, &above, 1, table);
    fill_nodes(s, chart, members, &above, 2, table);
    let mut framing = Framing::NONE;
    frames(s, chart, &mut framing);
    fill_constructs(s, chart, &framing, 0, table);
    fill_constructs(s, chart, &framing, 1, table);
    fill_constructs(s, chart, &framing, 2, table);
    fill_constructs(s, chart, &framing, 3, table);
    fill_constructs(s, chart, &framing, 4, table);
    put_numbers(chart, members, &framing, table);
    fill_children(0, table);
    fill_children(1, table);
    fill_edges(s, chart, table);
}
