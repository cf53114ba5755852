// Row 9 of the refusals, over the edges.
#![tactic(auto)]

ghost use Rattle.std.specs.Prelude.{◌≡◌, true, false, ◌+◌, ◌*◌, ◌-◌, ◌<◌, length};
ghost use Rattle.lists.specs.Range.{any};
ghost use Rattle.chart.specs.Format.{decode};
ghost use Rattle.chart.specs.Scope.{begin_node, end_node, scope_at};
ghost use Rattle.chart.specs.Refusal.{bad_nodes, rises, bad_edge_at, joins_sections, bad_edges};
ghost use Rattle.chart.specs.Checked.{Laid};
ghost use Rattle.check_edges.specs.Tables.{no_leaving, no_arriving, ScopesOf, FilledTo, ScopeTable, EdgeScopes, FramesKnown, SectionsTo, bad_by_itself};

use chart::format::{Chart, Construct, Edge, Framing, Node};

// The scope of node x: where it lies, or its own construct where its kind is `own`.
pub fn scope(s: &[u8], chart: Chart, x: usize, own: u8) -> u8
    requires { Laid s.now chart × (x < chart.nodes) × (bad_nodes (decode s.now) ≡ false) }
    ensures { result ≡ scope_at own (decode s.now).nodes (decode s.now).constructs x }
{
    let Node { kind, number } = Node::read(s, chart, x);
    if kind == own || kind < Node::BEGIN {
        number
    } else {
        Construct::read(s, chart, usize::from(number)).parent
    }
}

// The tables have a scope for every value of a byte, so that no number of an edge is out of range.
const BYTES: usize = 256;

// Scopes that no node has: of what no edge may leave, and of what none may come to.
const NO_LEAVING: u16 = 256;

const NO_ARRIVING: u16 = 257;

// The scope of each number, on leaving and on arriving.
#[derive(Clone, Copy)]
struct NodeScopes {
    leave: [u16; BYTES],
    arrive: [u16; BYTES],
}

// The number of each node as its scope, on leaving and on arriving, which it is but for ends on leaving and begins on arriving; a number
// that no node has gets a scope that no other has. No turn branches, so that several nodes are taken at once.
fn number_scopes(s: &[u8], chart: Chart) -> NodeScopes
    requires { Laid s.now chart × (bad_nodes (decode s.now) ≡ false) }
    ensures { let D = decode s.now in
        ScopesOf (FilledTo D end_node 0) begin_node no_leaving D chart.nodes result.leave
        × ScopesOf (FilledTo D begin_node 0) end_node no_arriving D chart.nodes result.arrive }
{
    let mut scopes = NodeScopes {
        leave: [NO_LEAVING; BYTES],
        arrive: [NO_ARRIVING; BYTES],
    };
    for x in 0..chart.nodes {
        let number = u16::from(Node::read(s, chart, x).number);
        scopes.leave[x] = number;
        scopes.arrive[x] = number;
    }
    scopes
}

// The scopes of all nodes, by number, on leaving and on arriving; a number that no node has gets a scope that no other has. Ends on
// leaving and begins on arriving get the parent of their construct in place of its number: by constructs, as most nodes are neither.
fn node_scopes(s: &[u8], chart: Chart, framing: &Framing) -> NodeScopes
    requires { FramesKnown s.now chart framing.now.begins framing.now.ends }
    ensures { ScopeTable begin_node no_leaving (decode s.now) result.leave × ScopeTable end_node no_arriving (decode s.now) result.arrive }
{
    let mut scopes = number_scopes(s, chart);
    for c in 0..chart.constructs {
        let parent = u16::from(Construct::read(s, chart, c).parent);
        scopes.leave[usize::from(framing.ends[c])] = parent;
        scopes.arrive[usize::from(framing.begins[c])] = parent;
    }
    scopes
}

// The pair (from, to) as one number, so that edges are ordered by one comparison.
fn key(edge: Edge) -> usize
    ensures { (result ≡ 256 * edge.from + edge.to) × (edge.to < 256) }
{
    256 * usize::from(edge.from) + usize::from(edge.to)
}

// Whether b comes after a by (from, to).
pub fn rising(a: Edge, b: Edge) -> bool
    ensures { result ≡ rises a.from a.to b.from b.to }
{
    key(a) < key(b)
}

// Row 9 but for sections, of edge i by itself.
fn bad_edge_at(s: &[u8], chart: Chart, i: usize, scopes: &NodeScopes) -> bool
    requires { Laid s.now chart × (i < chart.edges) × EdgeScopes (decode s.now) scopes.now.leave scopes.now.arrive }
    ensures { result ≡ bad_by_itself (decode s.now) i }
{
    let edge = Edge::read(s, chart, i);
    scopes.leave[usize::from(edge.from)] != scopes.arrive[usize::from(edge.to)]
}

// Row 9 but for sections and for the order of the edges, given the scopes of all nodes.
fn bad_edges_by(s: &[u8], chart: Chart, scopes: &NodeScopes) -> bool
    requires { Laid s.now chart × EdgeScopes (decode s.now) scopes.now.leave scopes.now.arrive }
    ensures { result ≡ any (length (decode s.now).edges) (bad_by_itself (decode s.now)) }
{
    (0..chart.edges).any(|i| bad_edge_at(s, chart, i, scopes))
}

// Which nodes are the end of a section, and which the begin, as 1 or 0, which `check_edges.specs.Tables` promises.
#[derive(Clone, Copy)]
struct SectionNodes {
    from: [u8; BYTES],
    to: [u8; BYTES],
}

// By constructs, as most nodes are neither.
fn mark_sections(s: &[u8], chart: Chart, framing: &Framing) -> SectionNodes
    requires { FramesKnown s.now chart framing.now.begins framing.now.ends }
    ensures { let D = decode s.now in
        SectionsTo D end_node chart.constructs result.from × SectionsTo D begin_node chart.constructs result.to }
{
    let mut marks = SectionNodes {
        from: [0u8; BYTES],
        to: [0u8; BYTES],
    };
    for c in 0..chart.constructs {
        let section = u8::from(Construct::read(s, chart, c).kind == Construct::SECTION);
        marks.from[usize::from(framing.ends[c])] = section;
        marks.to[usize::from(framing.begins[c])] = section;
    }
    marks
}

// Row 9 for sections: whether some edge leads from a section's end to a section's begin. No turn branches on what it reads: on a chart
// that was not seen before such a branch is mispredicted.
fn joins_sections(s: &[u8], chart: Chart, framing: &Framing) -> bool
    requires { FramesKnown s.now chart framing.now.begins framing.now.ends }
    ensures { result ≡ any (length (decode s.now).edges) (joins_sections (decode s.now)) }
{
    let SectionNodes { from, to } = mark_sections(s, chart, framing);
    let mut found = 0u8;
    for i in 0..chart.edges {
        let edge = Edge::read(s, chart, i);
        found |= from[usize::from(edge.from)] & to[usize::from(edge.to)];
    }
    found != 0
}

// Row 9 but for sections. The order is asked of all edges at once, so that one comparison of scopes is all that is left of each, and it is
// asked after the scopes are filled, which need not be read at once then. They are noted once for each node, not looked up for each edge.
// No edge may come to start or leave finish: there too stand scopes that no other has.
fn bad_scopes(s: &[u8], chart: Chart, framing: &Framing) -> bool
    requires { FramesKnown s.now chart framing.now.begins framing.now.ends }
    ensures { result ≡ any (length (decode s.now).edges) (bad_edge_at (decode s.now)) }
{
    let mut scopes = node_scopes(s, chart, framing);
    scopes.leave[chart.nodes - 1] = NO_LEAVING;
    scopes.arrive[0] = NO_ARRIVING;
    check_bare::bad_order(s, chart) || bad_edges_by(s, chart, &scopes)
}

// Row 9. Edges are asked for sections only where there is one, and for scopes only where there is a construct.
pub fn bad_edges(s: &[u8], chart: Chart, framing: &Framing) -> bool
    requires { FramesKnown s.now chart framing.now.begins framing.now.ends }
    ensures { result ≡ bad_edges (decode s.now) }
{
    if chart.constructs == 0 {
        return check_bare::bad_edges(s, chart);
    }
    bad_scopes(s, chart, framing)
        || Construct::occurs(s, chart, Construct::SECTION) && joins_sections(s, chart, framing)
}
