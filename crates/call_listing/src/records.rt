// The records of a listing's chart, put one after the other: nodes, edges and constructs, each in a table of their own.
ghost use Rattle.std.specs.Prelude.{◌≡◌, [], ◌∷◌, ◌++◌, ◌+◌, ◌*◌, ◌≤◌, ◌<◌, length, take};
ghost use Rattle.chart_writing.specs.Bytes.{field_bytes};
ghost use Rattle.call_listing.specs.Stored.{StoredNode};

use chart::format::{Edge, Node};
use chart_writing::scratch::put_part;

// Record k of nodes, or of constructs of edition 1: two bytes and a field, tag or name, which is 0.
pub fn put_record(out: &mut [u8], k: usize, first: u8, second: u8)
    requires { 4 * k + 4 ≤ length out.old }
    ensures { take (4 * (k + 1)) out.new ≡ take (4 * k) out.old ++ (first ∷ (second ∷ field_bytes 0 [])) }
{
    put_part(out, Node::BYTES * k, &[first, second, 0, 0]);
}

// Record e of edges.
fn put_edge(out: &mut [u8], e: usize, from: usize, to: usize)
    requires { (2 * e + 2 ≤ length out.old) × (from < 256) × (to < 256) }
    ensures { take (2 * (e + 1)) out.new ≡ take (2 * e) out.old ++ (from ∷ (to ∷ [])) }
{
    put_part(out, Edge::BYTES * e, &[from as u8, to as u8]);
}

// Node k, which leads to x and to y, or to one where they are the same; its first edge is number e. How many edges there are then.
pub fn put_cell(
    node: Node,
    k: usize,
    x: usize,
    y: usize,
    e: usize,
    nodes: &mut [u8],
    edges: &mut [u8],
) -> usize
    requires { (4 * k + 4 ≤ length nodes.old) × (2 * e + 4 ≤ length edges.old) × (k < 256) × (x < 256) × (y < 256) }
    ensures { StoredNode node.kind node.number k x y e result nodes.old edges.old nodes.new edges.new }
{
    put_record(nodes, k, node.kind, node.number);
    put_edge(edges, e, k, x.min(y));
    if x == y {
        return e + 1;
    }
    put_edge(edges, e + 1, k, x.max(y));
    e + 2
}
