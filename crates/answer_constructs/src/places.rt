// Masks of nodes, by the constructs that they lie in.
ghost use Rattle.std.specs.Prelude.{◌≡◌, ◌≤◌, get_or, length, replicate};
ghost use Rattle.chart.specs.Format.{decode};
ghost use Rattle.mark_tables.specs.Tables.{Accepted};
ghost use Rattle.answer_constructs.specs.Below.{place_of, Places, LaidOut};

use chart::format::{Chart, Construct, Node};

// Masks by the nodes' records: a node that lies in a construct finds its own in the first half, the construct's begin and end in the second. A
// node in no construct, which has the number 255, finds 0 in place 63.
type PlaceTable = [u64; PLACES];

const PLACES: usize = 128;

// A node has what the construct has that it lies in; the begin and the end of a construct have its bits of `inside` too. A parent is lower, and so
// done, and where there is none its number leads to place 63.
fn fill_places(
    s: &[u8],
    chart: Chart,
    chains: &[u64; Chart::CONSTRUCTS],
    inside: u64,
    places: &mut PlaceTable,
)
    requires { Accepted s.now chart × (places.old ≡ replicate 128 0) }
    ensures { Places (decode s.now) chains.now inside chart.constructs places.new }
{
    for c in 0..chart.constructs {
        let construct = Construct::read(s, chart, c);
        let above = places[construct.parent as usize % 64];
        places[c] = chains[c];
        places[64 + c] = above | (chains[c] & inside);
    }
}

// One look-up, and no branch.
fn find(node: Node, places: &PlaceTable) -> u64
    requires { node.kind ≤ 3 }
    ensures { result ≡ get_or places.now (place_of node.kind node.number) 0 }
{
    let half = node.kind as usize / 2;
    places[half * 64 + node.number as usize % 64]
}

// The masks of all nodes, given those of the constructs.
pub fn lay_out(
    s: &[u8],
    chart: Chart,
    chains: &[u64; Chart::CONSTRUCTS],
    inside: u64,
    masks: &mut [u64; Chart::NODES],
)
    requires { Accepted s.now chart × (length masks.old ≡ 192) }
    ensures { LaidOut (decode s.now) chains.now inside chart.nodes masks.old masks.new }
{
    let mut places = [0u64; PLACES];
    fill_places(s, chart, chains, inside, &mut places);
    for x in 0..chart.nodes {
        masks[x] = find(Node::read(s, chart, x), &places);
    }
}
