// The columns of the nodes and of the constructs.
ghost use Rattle.std.specs.Prelude.{◌≡◌, ℕ, ◌+◌, ◌*◌, ◌≤◌, ◌<◌, length, get_or};
ghost use Rattle.lists.specs.Bits.{has as has_bit};
ghost use Rattle.chart.specs.Format.{decode};
ghost use Rattle.chart.specs.Scope.{lies_at};
ghost use Rattle.mark_tables.specs.Tables.{Accepted};
ghost use Rattle.answer_steps.specs.Words.{Column, role_code, node_word, construct_word, Nodes, Above};

use crate::tables::{BYTES, KINDS, ROLES, RegionTable};
use answer_constructs::chains::mask_at;
use chart::format::{Chart, Construct, Framing, Node};
use masks::bits::{bit, has};

// What a node is for the region.
fn role_code(node: Node, region: usize, members: u64) -> u64
    requires { 2 ≤ node.kind → node.number < 64 }
    ensures { result ≡ role_code region (has_bit members) node.kind node.number }
{
    if node.kind == Node::PLAIN {
        return 0;
    }
    let number = usize::from(node.number);
    if number == region {
        return 1;
    }
    if node.kind == Node::BARRIER {
        return 0;
    }
    if has(members, number) {
        return node.kind as u64;
    }
    0
}

// The construct that node x lies in.
fn place_of(s: &[u8], chart: Chart, x: usize) -> u8
    requires { Accepted s.now chart × (x < chart.nodes) }
    ensures { result ≡ lies_at (decode s.now).nodes (decode s.now).constructs x }
{
    let node = Node::read(s, chart, x);
    if node.kind < Node::BEGIN {
        return node.number;
    }
    Construct::read(s, chart, usize::from(node.number)).parent
}

// One construct more, with those around it. Its parent is lower, and so done.
fn add_above(s: &[u8], chart: Chart, c: usize, above: &mut [u64; Chart::CONSTRUCTS])
    requires { Accepted s.now chart × (c < chart.constructs) × Above (decode s.now) c above.old }
    ensures { Above (decode s.now) (c + 1) above.new }
{
    let parent = Construct::read(s, chart, c).parent;
    above[c] = bit(c) | mask_at(above, parent);
}

// For each construct those around it and itself.
pub fn fill_above(s: &[u8], chart: Chart, above: &mut [u64; Chart::CONSTRUCTS])
    requires { Accepted s.now chart × (length above.old ≡ 48) }
    ensures { Above (decode s.now) chart.constructs above.new }
{
    for c in 0..chart.constructs {
        add_above(s, chart, c, above);
    }
}

// A word of node x.
fn node_word(
    s: &[u8],
    chart: Chart,
    members: u64,
    above: &[u64; Chart::CONSTRUCTS],
    which: usize,
    x: usize,
) -> u64
    requires { Accepted s.now chart × (x < chart.nodes) × Above (decode s.now) chart.constructs above.now }
    ensures { result ≡ node_word (decode s.now) chart.region members which x }
{
    let node = Node::read(s, chart, x);
    if which == 0 {
        return role_code(node, chart.region, members);
    }
    if which != 1 {
        return mask_at(above, place_of(s, chart, x));
    }
    if node.kind < Node::BEGIN {
        return 0;
    }
    node.number as u64
}

// A column of the nodes.
pub fn fill_nodes(
    s: &[u8],
    chart: Chart,
    members: u64,
    above: &[u64; Chart::CONSTRUCTS],
    which: usize,
    table: &mut RegionTable,
)
    requires { Accepted s.now chart × Above (decode s.now) chart.constructs above.now × (which < 3) × (length table.old ≡ 2133) }
    ensures { Column (1024 + 256 * which) chart.nodes (node_word (decode s.now) chart.region members which) table.old table.new }
{
    for x in 0..chart.nodes {
        table[ROLES + BYTES * which + x] = node_word(s, chart, members, above, which, x);
    }
}

// A word of construct c.
fn construct_word(s: &[u8], chart: Chart, framing: &Framing, which: usize, c: usize) -> u64
    requires { Accepted s.now chart × (c < chart.constructs) × Nodes framing.now.begins × Nodes framing.now.ends }
    ensures { result ≡ construct_word (decode s.now) framing.now.begins framing.now.ends which c }
{
    let construct = Construct::read(s, chart, c);
    if which == 0 {
        return construct.kind as u64;
    }
    if which == 1 {
        return construct.parent as u64;
    }
    if which == 2 {
        return construct.filter as u64;
    }
    if which == 3 {
        return framing.begins[c] as u64;
    }
    framing.ends[c] as u64
}

// A column of the constructs.
pub fn fill_constructs(
    s: &[u8],
    chart: Chart,
    framing: &Framing,
    which: usize,
    table: &mut RegionTable,
)
    requires { Accepted s.now chart × (which < 5) × (length table.old ≡ 2133) × Nodes framing.now.begins × Nodes framing.now.ends }
    ensures { let word = construct_word (decode s.now) framing.now.begins framing.now.ends which in
        Column (1792 + 48 * which) chart.constructs word table.old table.new }
{
    for c in 0..chart.constructs {
        table[KINDS + Chart::CONSTRUCTS * which + c] = construct_word(s, chart, framing, which, c);
    }
}
