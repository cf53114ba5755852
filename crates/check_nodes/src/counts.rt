// Rows 7 and 8 of the refusals: nodes are noted and counted by their kinds and numbers.
ghost use Rattle.std.specs.Prelude.{◌≡◌, false, ◌&&◌, cond, ℕ, ◌+◌, ◌≤◌, ◌<◌, eqb, leb, get_or, length, replicate};
ghost use Rattle.lists.specs.Range.{any, count};
ghost use Rattle.lists.specs.Store.{Written};
ghost use Rattle.chart.specs.Format.{outside, decode};
ghost use Rattle.chart.specs.Scope.{barrier_node};
ghost use Rattle.chart.specs.Nested.{is_parallel};
ghost use Rattle.chart.specs.Refusal.{bad_nodes, bad_frames, barrier_of, too_many_in, bad_barriers};
ghost use Rattle.chart.specs.Checked.{Laid};
ghost use Rattle.check_nodes.specs.Counted.{Counted};
ghost use Rattle.check_nodes.specs.Framed.{not_noted, noted_at, lacking, Noted, BothFramed};

use chart::format::{Chart, Construct, Frames, Framing, Node};

// How many numbers a node may have.
const NUMBERS: usize = 256;

// Where that holds of a node, it counts for its number.
fn count_if(holds: bool, number: u8, found: &mut [u8; NUMBERS])
    requires { (length found.old ≡ 256) × ((c : ℕ) → get_or found.old c 0 < 192) }
    ensures { (length found.new ≡ 256) × ((c : ℕ) → get_or found.new c 0 ≡ get_or found.old c 0 + cond (holds && eqb number c) 1 0) }
{
    if holds {
        found[usize::from(number)] += 1;
    }
}

// The nodes by their kinds and numbers: a row of 64 places for each of the four kinds. A node with the number 255 comes to the last place of
// its row, which is no construct's.
type NodeTable = [u8; PLACES];

const PLACES: usize = 4 * Construct::FRAMES;

// In place of a node, that none was noted: a place is one byte, which `check_nodes.specs.Framed` promises, and no Option.
const NOT_NOTED: u8 = 255;

// Each node is noted in its place, of several the last there; how many are begins and ends. No turn branches: of which kind the next node is
// cannot be foreseen.
fn note_nodes(s: &[u8], chart: Chart, noted: &mut NodeTable) -> usize
    requires { Laid s.now chart × (bad_nodes (decode s.now) ≡ false) × (noted.old ≡ replicate 256 not_noted) }
    ensures { Noted (decode s.now) chart.nodes noted.new result }
{
    let mut frames = 0;
    for x in 0..chart.nodes {
        let node = Node::read(s, chart, x);
        let kind = usize::from(node.kind);
        // 1 for a begin and an end, else 0
        frames += kind / 2;
        noted[kind * Construct::FRAMES + usize::from(node.number) % Construct::FRAMES] = x as u8;
    }
    frames
}

// The node of this kind of each construct, as noted, and whether some construct has none.
fn take_frames(noted: &NodeTable, kind: u8, constructs: usize, frames: &mut Frames) -> bool
    requires { (kind ≤ 3) × (constructs ≤ 48) × (length noted.now ≡ 256) × (frames.old ≡ replicate 64 0) }
    ensures value { result ≡ lacking kind constructs noted.now }
    ensures written { Written (noted_at kind noted.now) constructs frames.new }
{
    let row = usize::from(kind) * Construct::FRAMES;
    let mut lacks = false;
    for c in 0..constructs {
        let node = noted[row + c];
        frames[c] = node;
        lacks |= node == NOT_NOTED;
    }
    lacks
}

// Row 7, and for each construct its begin and its end where the row does not apply. Without constructs there is none that could lack a frame.
pub fn bad_frames(s: &[u8], chart: Chart, framing: &mut Framing) -> bool
    requires { Laid s.now chart × (bad_nodes (decode s.now) ≡ false) }
    ensures value { result ≡ bad_frames (decode s.now) }
    ensures both_framed { result ≡ false → BothFramed (decode s.now) framing.new.begins framing.new.ends }
{
    *framing = Framing::NONE;
    if chart.constructs == 0 {
        return false;
    }
    let mut noted = [NOT_NOTED; PLACES];
    let frames = note_nodes(s, chart, &mut noted);
    let c = chart.constructs;
    if frames != 2 * c {
        return true;
    }
    let no_begin = take_frames(&noted, Node::BEGIN, c, &mut framing.begins);
    let no_end = take_frames(&noted, Node::END, c, &mut framing.ends);
    no_begin || no_end
}

// What a node counts for the outermost region: one if it is a barrier there.
fn outermost(node: Node) -> u8
    ensures { result ≡ cond (leb barrier_node node.kind && eqb node.number outside) 1 0 }
{
    u8::from(Node::BARRIER <= node.kind && node.number == Construct::NONE)
}

// How many barriers the outermost region has. No turn branches and the count is a byte, so that many nodes are taken at once: `count` of an
// iterator counts in words.
fn count_outermost(s: &[u8], chart: Chart) -> u8
    requires { Laid s.now chart }
    ensures { let nodes = (decode s.now).nodes in result ≡ count (length nodes) (barrier_of nodes outside) }
{
    let mut found = 0u8;
    for x in 0..chart.nodes {
        found += outermost(Node::read(s, chart, x));
    }
    found
}

// How many barriers each region has, its begin and its end among them, if the number is a region's.
fn count_barriers(s: &[u8], chart: Chart, found: &mut [u8; NUMBERS])
    requires { Laid s.now chart × Counted (decode s.now) (leb barrier_node) 0 found.old }
    ensures { Counted (decode s.now) (leb barrier_node) chart.nodes found.new }
{
    for x in 0..chart.nodes {
        let node = Node::read(s, chart, x);
        count_if(Node::BARRIER <= node.kind, node.number, found);
    }
}

// Whether c is a parallel whose region has over 64 barriers. Few numbers are counted so often: the construct is read last.
fn crowded_at(s: &[u8], chart: Chart, found: &[u8; NUMBERS], c: usize) -> bool
    requires { Laid s.now chart × Counted (decode s.now) (leb barrier_node) chart.nodes found.now × (c < chart.constructs) }
    ensures { let D = decode s.now in result ≡ (is_parallel D.constructs c && too_many_in D.nodes c) }
{
    Chart::BARRIERS < usize::from(found[c])
        && Construct::read(s, chart, c).kind == Construct::PARALLEL
}

// Whether the region of some parallel has over 64 barriers.
fn crowded(s: &[u8], chart: Chart, found: &[u8; NUMBERS]) -> bool
    requires { Laid s.now chart × Counted (decode s.now) (leb barrier_node) chart.nodes found.now }
    ensures { let D = decode s.now in result ≡ any (length D.constructs) (λ c. is_parallel D.constructs c && too_many_in D.nodes c) }
{
    (0..chart.constructs).any(|c| crowded_at(s, chart, found, c))
}

// Row 8. Barriers are counted by regions only where there is a parallel.
pub fn bad_barriers(s: &[u8], chart: Chart) -> bool
    requires { Laid s.now chart }
    ensures { result ≡ bad_barriers (decode s.now) }
{
    let n = chart.nodes;
    if Node::read(s, chart, 0).kind != Node::BARRIER
        || Node::read(s, chart, n - 1).kind != Node::BARRIER
        || Chart::BARRIERS < usize::from(count_outermost(s, chart))
    {
        return true;
    }
    if !Construct::occurs(s, chart, Construct::PARALLEL) {
        return false;
    }
    let mut found = [0u8; NUMBERS];
    count_barriers(s, chart, &mut found);
    crowded(s, chart, &found)
}
