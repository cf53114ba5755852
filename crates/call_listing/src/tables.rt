// The tables of a listing's chart, filled from a text that was read before: nodes in the order of their numbers, edges node by node, constructs.
// A block calls for items and an item for blocks; the bytes left fall.
ghost use Rattle.std.specs.Prelude.{◌≡◌, ℕ, get_or};
ghost use Rattle.theory_listing.specs.Grammar.{loop_letter, branch_letter};
ghost use Rattle.call_listing.specs.Reads.{Reads, Takes, Room, ConstructAt, EndRoom, FilledItem, FilledBlock, StoredEnd, ahead_of};

use crate::letters;
use crate::reader::{block, item, letter_kind};
use crate::records::{put_cell, put_record};
use chart::format::{Chart, Construct, Edge, Node};

// Where filling goes on: the place in the text and the braces that may still be open there, the construct around it, the numbers of the next
// construct and the next node, the node that follows, and how many edges there are.
#[derive(Clone, Copy)]
pub struct Spot {
    pub at: usize,
    pub depth: usize,
    pub owner: u8,
    pub part: usize,
    pub node: usize,
    pub follow: usize,
    pub edge: usize,
}

// The bytes of the three tables: a record for each node and each construct, and two edges for each node.
impl Spot {
    pub const NODE_BYTES: usize = Node::BYTES * Chart::NODES;

    pub const EDGE_BYTES: usize = 2 * Edge::BYTES * Chart::NODES;

    pub const PART_BYTES: usize = Construct::BYTES_1 * Chart::CONSTRUCTS;
}

// Where a way into the block at a place leads: to k, its first node, or to t where it is empty.
pub fn ahead(s: &[u8], at: usize, k: usize, t: usize) -> usize
    ensures { result ≡ ahead_of s.now at k t }
{
    if s.len() <= at || s[at] == letters::CLOSE {
        t
    } else {
        k
    }
}

// A loop: its head, and its block, which leads back.
#[cycle(tables)]
fn fill_loop(s: &[u8], spot: Spot, nodes: &mut [u8], edges: &mut [u8], parts: &mut [u8]) -> usize
    requires { (get_or s.now spot.at 0 ≡ loop_letter) × ((n : ℕ) × Takes s.now spot n) × Room spot nodes.old edges.old parts.old }
    ensures { FilledItem s.now spot result nodes.old edges.old parts.old nodes.new edges.new parts.new }
{
    let k = spot.node;
    let first = k + 1;
    let at = spot.at + 2;
    let depth = spot.depth - 1;
    let head = Node {
        kind: Node::PLAIN,
        number: spot.owner,
    };
    let e0 = put_cell(
        head,
        k,
        ahead(s, at, first, k),
        spot.follow,
        spot.edge,
        nodes,
        edges,
    );
    let inner = Spot {
        at,
        depth,
        node: first,
        follow: k,
        edge: e0,
        ..spot
    };
    fill_block(s, inner, nodes, edges, parts)
}

// A branch of n nodes: its node, two blocks, its join.
#[cycle(tables)]
fn fill_branch(
    s: &[u8],
    spot: Spot,
    n: usize,
    nodes: &mut [u8],
    edges: &mut [u8],
    parts: &mut [u8],
) -> usize
    requires { (get_or s.now spot.at 0 ≡ branch_letter) × Takes s.now spot n × Room spot nodes.old edges.old parts.old }
    ensures { FilledItem s.now spot result nodes.old edges.old parts.old nodes.new edges.new parts.new }
{
    let k = spot.node;
    let first = k + 1;
    let at = spot.at + 2;
    let depth = spot.depth - 1;
    let join = k + n - 1;
    let Ok(inside) = block(s, at, depth) else {
        return spot.edge;
    };
    let other = inside.next + 2;
    let second = first + inside.nodes;
    let fork = Node {
        kind: Node::PLAIN,
        number: spot.owner,
    };
    let e0 = put_cell(
        fork,
        k,
        ahead(s, at, first, join),
        ahead(s, other, second, join),
        spot.edge,
        nodes,
        edges,
    );
    let one = Spot {
        at,
        depth,
        node: first,
        follow: join,
        edge: e0,
        ..spot
    };
    let e1 = fill_block(s, one, nodes, edges, parts);
    let two = Spot {
        at: other,
        part: spot.part + inside.constructs,
        node: second,
        edge: e1,
        ..one
    };
    let e2 = fill_block(s, two, nodes, edges, parts);
    put_cell(fork, join, spot.follow, spot.follow, e2, nodes, edges)
}

// The end of the construct of n nodes at a spot, which is node k, and the barrier that follows it, where there is one.
fn put_end(spot: Spot, n: usize, k: usize, edge: usize, nodes: &mut [u8], edges: &mut [u8]) -> usize
    requires { EndRoom spot n k edge nodes.old edges.old }
    ensures { StoredEnd spot n k edge result nodes.old edges.old nodes.new edges.new }
{
    let end = Node {
        kind: Node::END,
        number: (spot.part % 256) as u8,
    };
    if spot.node + n <= k + 1 {
        return put_cell(end, k, spot.follow, spot.follow, edge, nodes, edges);
    }
    let e = put_cell(end, k, k + 1, k + 1, edge, nodes, edges);
    put_cell(
        Node {
            kind: Node::BARRIER,
            number: spot.owner,
        },
        k + 1,
        spot.follow,
        spot.follow,
        e,
        nodes,
        edges,
    )
}

// A construct of n nodes: its begin, its block, its end, and the barrier that follows it, where there is one.
#[cycle(tables)]
fn fill_construct(
    s: &[u8],
    spot: Spot,
    n: usize,
    nodes: &mut [u8],
    edges: &mut [u8],
    parts: &mut [u8],
) -> usize
    requires { ConstructAt s.now spot × Takes s.now spot n × Room spot nodes.old edges.old parts.old }
    ensures { FilledItem s.now spot result nodes.old edges.old parts.old nodes.new edges.new parts.new }
{
    let k = spot.node;
    let m = spot.part;
    let at = spot.at;
    let inside = at + 2;
    let depth = spot.depth - 1;
    let first = k + 1;
    let Ok(inner) = block(s, inside, depth) else {
        return spot.edge;
    };
    let number = (m % 256) as u8;
    let end = first + inner.nodes;
    put_record(parts, m, letter_kind(s[at]), spot.owner);
    let e0 = put_cell(
        Node {
            kind: Node::BEGIN,
            number,
        },
        k,
        first,
        first,
        spot.edge,
        nodes,
        edges,
    );
    let body = Spot {
        at: inside,
        depth,
        owner: number,
        part: m + 1,
        node: first,
        follow: end,
        edge: e0,
    };
    let e1 = fill_block(s, body, nodes, edges, parts);
    put_end(spot, n, end, e1, nodes, edges)
}

// The item of n nodes at a spot; the node that follows it is the spot's. How many edges there are then.
#[cycle(tables)]
fn fill_item(
    s: &[u8],
    spot: Spot,
    n: usize,
    nodes: &mut [u8],
    edges: &mut [u8],
    parts: &mut [u8],
) -> usize
    requires { Takes s.now spot n × Room spot nodes.old edges.old parts.old }
    ensures { FilledItem s.now spot result nodes.old edges.old parts.old nodes.new edges.new parts.new }
{
    let kind = match s[spot.at] {
        letters::PLAIN => Node::PLAIN,
        letters::BARRIER => Node::BARRIER,
        letters::LOOP => return fill_loop(s, spot, nodes, edges, parts),
        letters::BRANCH => return fill_branch(s, spot, n, nodes, edges, parts),
        _ => return fill_construct(s, spot, n, nodes, edges, parts),
    };
    let node = Node {
        kind,
        number: spot.owner,
    };
    put_cell(
        node,
        spot.node,
        spot.follow,
        spot.follow,
        spot.edge,
        nodes,
        edges,
    )
}

// The block at a spot, item by item. How many edges there are then.
#[cycle(tables)]
pub fn fill_block(
    s: &[u8],
    spot: Spot,
    nodes: &mut [u8],
    edges: &mut [u8],
    parts: &mut [u8],
) -> usize
    requires { Reads s.now spot × Room spot nodes.old edges.old parts.old }
    ensures { FilledBlock s.now spot result nodes.old edges.old parts.old nodes.new edges.new parts.new }
{
    let mut here = spot;
    while here.at < s.len() {
        let at = here.at;
        if s[at] == letters::CLOSE {
            return here.edge;
        }
        let Ok(read) = item(s, at, spot.depth) else {
            return here.edge;
        };
        let node = here.node + read.nodes;
        let one = Spot {
            at,
            part: here.part,
            node: here.node,
            follow: ahead(s, read.next, node, spot.follow),
            edge: here.edge,
            ..spot
        };
        let edge = fill_item(s, one, read.nodes, nodes, edges, parts);
        here = Spot {
            at: read.next,
            part: here.part + read.constructs,
            node,
            edge,
            ..spot
        };
    }
    here.edge
}
