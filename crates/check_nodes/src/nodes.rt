// Row 5 of the refusals, over the nodes.
ghost use Rattle.std.specs.Prelude.{◌≡◌, ◌&&◌, not, cond, eqb, length};
ghost use Rattle.lists.specs.Range.{any};
ghost use Rattle.chart.specs.Format.{outside, decode};
ghost use Rattle.chart.specs.Scope.{barrier_node};
ghost use Rattle.chart.specs.Refusal.{bad_node, bad_nodes};
ghost use Rattle.chart.specs.Checked.{Laid};
ghost use Rattle.check_nodes.specs.Parts.{alone_at, doubtful as parts_doubtful, doubtful_at};

use chart::format::{Chart, Construct, Node};

// Row 5, of one node by itself.
fn bad_node(s: &[u8], chart: Chart, node: Node) -> bool
    requires { Laid s.now chart }
    ensures { result ≡ bad_node (decode s.now).constructs node.kind node.number }
{
    let Node { kind, number } = node;
    if number == Construct::NONE {
        return Node::BEGIN <= kind;
    }
    let c = usize::from(number);
    Node::END < kind
        || chart.constructs <= c
        || kind == Node::BARRIER && Construct::read(s, chart, c).kind != Construct::PARALLEL
}

// Row 5, of each node by itself.
fn bad_each(s: &[u8], chart: Chart) -> bool
    requires { Laid s.now chart }
    ensures { result ≡ any (length (decode s.now).nodes) (alone_at (decode s.now)) }
{
    (0..chart.nodes).any(|x| bad_node(s, chart, Node::read(s, chart, x)))
}

// Whether a node may be bad by itself: a bad one, or a barrier that names a construct, be it a parallel or not. Only bytes are compared, so
// that many nodes are taken at once.
#[tactic(auto, using(std::proofs::lemmas::Bool::Decides::nat_tests), unfolding(crate::specs::Parts::doubtful))]
fn doubtful(node: Node, constructs: u8) -> bool
    ensures { result ≡ parts_doubtful constructs node.kind node.number }
{
    let Node { kind, number } = node;
    let doubtful = if number == Construct::NONE {
        Node::BEGIN <= kind
    } else {
        constructs <= number || kind == Node::BARRIER
    };
    Node::END < kind || doubtful
}

// Whether some node may be. No turn leaves the loop or reads a construct.
fn any_doubtful(s: &[u8], chart: Chart) -> bool
    requires { Laid s.now chart }
    ensures { result ≡ any (length (decode s.now).nodes) (doubtful_at (decode s.now)) }
{
    let constructs = chart.constructs as u8;
    let mut found = false;
    for x in 0..chart.nodes {
        found |= doubtful(Node::read(s, chart, x), constructs);
    }
    found
}

// A barrier that names a region, as none may at either end of the chart.
fn names_region(node: Node) -> bool
    ensures { result ≡ (eqb node.kind barrier_node && not (eqb node.number outside)) }
{
    node.kind == Node::BARRIER && node.number != Construct::NONE
}

// Row 5. Nodes are asked one by one only where one is doubtful, as none is in most charts.
pub fn bad_nodes(s: &[u8], chart: Chart) -> bool
    requires { Laid s.now chart }
    ensures { result ≡ bad_nodes (decode s.now) }
{
    if chart.constructs == 0 {
        return check_bare::bad_nodes(s, chart);
    }
    names_region(Node::read(s, chart, 0))
        || names_region(Node::read(s, chart, chart.nodes - 1))
        || any_doubtful(s, chart) && bad_each(s, chart)
}
