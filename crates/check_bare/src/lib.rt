// Rows 5 and 9 of the refusals, on charts without constructs, and of row 9 on any chart the order of the edges. Each byte place tells a
// number, 0 where no record begins, and the highest decides: with no branch and no place left out the compiler takes 16 places at once.
// `check_nodes` and `check_edges` ask the same rows of other charts, by records and tables, and share no loop with these.
#![tactic(auto)]

ghost use Rattle.std.specs.Prelude.{◌≡◌, false, cond, ◌*◌, ◌-◌, ◌<◌, min, max};
ghost use Rattle.lists.specs.Range.{any};
ghost use Rattle.chart.specs.Format.{decode};
ghost use Rattle.chart.specs.Refusal.{bad_nodes, bad_edges};
ghost use Rattle.chart.specs.Checked.{Laid};
ghost use Rattle.check_bare.specs.Told.{evenly, node_told, edge_told, node_place, edge_place, Highest, bad_next};

use chart::format::{Chart, Construct, Edge, Node};

// The highest byte where that holds, and 0 where not.
fn full(holds: bool) -> u8
    ensures { result ≡ cond holds 255 0 }
{
    if holds { 255 } else { 0 }
}

// The byte at an even place, and 0 at an odd one.
fn at_even(k: usize, byte: u8) -> u8
    ensures { result ≡ evenly k byte }
{
    byte.min(full(k % 2 == 0))
}

fn tell_node(kind: u8, number: u8) -> u8
    ensures { result ≡ node_told kind number }
{
    kind.max(full(number != Construct::NONE))
}

// Of the edge (from, to), after the edge (a, b).
fn tell_edge(a: u8, b: u8, from: u8, to: u8) -> u8
    ensures { result ≡ edge_told a b from to }
{
    let alone = to.max(full(to == 0));
    let falls = full(from < a).max(full(a == from).min(full(to <= b)));
    alone.max(falls)
}

// A node begins at every fourth place: at the even ones of the even places.
fn highest_node(s: &[u8], chart: Chart) -> u8
    requires { Laid s.now chart }
    ensures { Highest (node_place s.now) (4 * chart.nodes) result }
{
    let all = Node::BYTES * chart.nodes;
    let mut high = 0u8;
    for k in 0..all {
        high = high.max(at_even(k, at_even(k / 2, tell_node(s[k], s[k + 1]))));
    }
    high
}

fn highest_edge(s: &[u8], chart: Chart) -> u8
    requires { Laid s.now chart }
    ensures { Highest (edge_place s.now (4 * chart.nodes)) (2 * (chart.edges - 1)) result }
{
    let first = Node::BYTES * chart.nodes;
    let last = Edge::BYTES * (chart.edges - 1);
    let mut high = 0u8;
    for k in 0..last {
        let at = first + k;
        high = high.max(at_even(k, tell_edge(s[at], s[at + 1], s[at + 2], s[at + 3])));
    }
    high
}

// Whether some edge but the first does not rise above the one before it, or comes to start or to no node.
pub fn bad_order(s: &[u8], chart: Chart) -> bool
    requires { Laid s.now chart }
    ensures { result ≡ any (chart.edges - 1) (bad_next (decode s.now)) }
{
    chart.nodes <= usize::from(highest_edge(s, chart))
}

// Row 5: with no construct a node is plain or a barrier, and outside.
pub fn bad_nodes(s: &[u8], chart: Chart) -> bool
    requires { Laid s.now chart × (chart.constructs ≡ 0) }
    ensures { result ≡ bad_nodes (decode s.now) }
{
    Node::BEGIN <= highest_node(s, chart)
}

// Row 9: with no construct all scopes are equal. Where the edges rise, none leaves a higher node than the last one does.
pub fn bad_edges(s: &[u8], chart: Chart) -> bool
    requires { Laid s.now chart × (chart.constructs ≡ 0) × (bad_nodes (decode s.now) ≡ false) }
    ensures { result ≡ bad_edges (decode s.now) }
{
    let n = chart.nodes;
    let to = usize::from(Edge::read(s, chart, 0).to);
    let from = usize::from(Edge::read(s, chart, chart.edges - 1).from);
    to == 0 || n <= to || n <= from + 1 || bad_order(s, chart)
}
