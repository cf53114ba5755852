// A reading position in the bytes of a chart, and the records that stand there.
ghost use Rattle.std.specs.Prelude.{◌≡◌, cond, ◌+◌, ◌*◌, ◌-◌, ◌/◌, ◌%◌, ◌≤◌, ◌<◌, eqb, get_or, length};
ghost use Rattle.chart.specs.Format.{field, construct_bytes, decode, node_at, edge_at, construct_at};
ghost use Rattle.chart.specs.Refusal.{any_of};
ghost use Rattle.chart.specs.Checked.{Laid, counts_of, read_for};

use crate::format::{Chart, Construct, Edge, Node};

#[derive(Clone, Copy)]
pub struct Cursor {
    pub at: usize,
}

impl Cursor {
    pub fn trailer(s: &[u8]) -> Self
        requires { 16 ≤ length s.now }
        ensures { result.at ≡ length s.now - 16 }
    {
        Cursor {
            at: s.len() - Chart::TRAILER_BYTES,
        }
    }

    pub fn node(x: usize) -> Self
        requires { x < 192 }
        ensures { result.at ≡ 4 * x }
    {
        Cursor {
            at: Node::BYTES * x,
        }
    }

    pub fn edge(chart: Chart, i: usize) -> Self
        requires { (chart.nodes ≤ 192) × (i < 1024) }
        ensures { result.at ≡ 4 * chart.nodes + 2 * i }
    {
        Cursor {
            at: Node::BYTES * chart.nodes + Edge::BYTES * i,
        }
    }

    pub fn construct(chart: Chart, c: usize) -> Self
        requires { (chart.nodes ≤ 192) × (chart.edges ≤ 1024) × (c < 48) }
        ensures { result.at ≡ 4 * chart.nodes + 2 * chart.edges + construct_bytes chart.edition c }
    {
        Cursor {
            at: Node::BYTES * chart.nodes
                + Edge::BYTES * chart.edges
                + construct_bytes(chart.edition, c),
        }
    }

    // The byte at an offset from the cursor.
    pub fn byte(self, s: &[u8], offset: usize) -> u8
        requires { self.at + offset < length s.now }
        ensures { result ≡ get_or s.now (self.at + offset) 0 }
    {
        let at = self.at + offset;
        s[at]
    }

    // The field of two bytes at an offset from the cursor.
    #[tactic(auto, unfolding(crate::specs::Format::field))]
    pub fn field(self, s: &[u8], offset: usize) -> usize
        requires { self.at + offset + 1 < length s.now }
        ensures { (result ≡ field s.now (self.at + offset)) × (result < 65536) }
    {
        let at = self.at + offset;
        usize::from(u16::from_le_bytes([s[at], s[at + 1]]))
    }

    // The four bytes at the cursor as one number, lowest first. Loops that read records so are taken several at a time by the compiler,
    // those that read single bytes of records are not.
    pub fn word(self, s: &[u8]) -> u32
        requires { self.at + 3 < length s.now }
        ensures { (result % 256 ≡ get_or s.now self.at 0) × (result / 256 % 256 ≡ get_or s.now (self.at + 1) 0) }
    {
        let at = self.at;
        u32::from_le_bytes([s[at], s[at + 1], s[at + 2], s[at + 3]])
    }

    // The filter of the construct at the cursor.
    pub fn filter(self, s: &[u8], edition: usize) -> usize
        requires { self.at + 5 < length s.now }
        ensures { result ≡ cond (eqb edition 2) (field s.now (self.at + 4)) 0 }
    {
        if edition == Chart::EDITION_2 {
            self.field(s, 4)
        } else {
            0
        }
    }
}

// The bytes of c construct records.
#[tactic(auto, unfolding(crate::specs::Format::construct_bytes))]
pub fn construct_bytes(edition: usize, c: usize) -> usize
    requires { c < 65536 }
    ensures { (result ≡ construct_bytes edition c) × (result ≤ 6 * c) }
{
    if edition == Chart::EDITION_2 {
        Construct::BYTES_2 * c
    } else {
        Construct::BYTES_1 * c
    }
}

impl Chart {
    // The edition and the counts that the trailer gives; the chart is read for its outermost region.
    pub fn read(s: &[u8]) -> Chart
        requires { 16 ≤ length s.now }
        ensures value { result ≡ counts_of s.now }
        ensures nodes_bound { (result.nodes < 65536) × (result.edges < 65536) × (result.constructs < 65536) }
    {
        let cursor = Cursor::trailer(s);
        Chart {
            edition: cursor.field(s, 0),
            nodes: cursor.field(s, 2),
            edges: cursor.field(s, 4),
            constructs: cursor.field(s, 6),
            region: Chart::OUTERMOST,
        }
    }

    // The same chart, read for another region.
    pub fn read_for(self, region: usize) -> Chart
        ensures { result ≡ read_for self region }
    {
        Chart { region, ..self }
    }
}

impl Node {
    // Node x of a chart.
    pub fn read(s: &[u8], chart: Chart, x: usize) -> Node
        requires { Laid s.now chart × (x < chart.nodes) }
        ensures { (result.kind ≡ (node_at (decode s.now).nodes x).kind) × (result.number ≡ (node_at (decode s.now).nodes x).number) }
    {
        let [kind, number, _, _] = Cursor::node(x).word(s).to_le_bytes();
        Node { kind, number }
    }
}

impl Edge {
    // Edge i of a chart.
    pub fn read(s: &[u8], chart: Chart, i: usize) -> Edge
        requires { Laid s.now chart × (i < chart.edges) }
        ensures { (result.from ≡ (edge_at (decode s.now).edges i).from) × (result.to ≡ (edge_at (decode s.now).edges i).to) }
    {
        let cursor = Cursor::edge(chart, i);
        Edge {
            from: cursor.byte(s, 0),
            to: cursor.byte(s, 1),
        }
    }
}

impl Construct {
    // Construct c of a chart.
    #[tactic(auto, using(crate::proofs::Records::construct_room))]
    pub fn read(s: &[u8], chart: Chart, c: usize) -> Construct
        requires { Laid s.now chart × (c < chart.constructs) }
        ensures { let k = construct_at (decode s.now).constructs c in
            (result.kind ≡ k.kind) × (result.parent ≡ k.parent) × (result.name ≡ k.name) × (result.filter ≡ k.filter) }
    {
        let cursor = Cursor::construct(chart, c);
        Construct {
            kind: cursor.byte(s, 0),
            parent: cursor.byte(s, 1),
            name: cursor.field(s, 2),
            filter: cursor.filter(s, chart.edition),
        }
    }

    // Whether a chart has a construct of this kind.
    pub fn occurs(s: &[u8], chart: Chart, kind: u8) -> bool
        requires { Laid s.now chart }
        ensures { result ≡ any_of (decode s.now).constructs kind }
    {
        (0..chart.constructs).any(|c| Construct::read(s, chart, c).kind == kind)
    }
}
