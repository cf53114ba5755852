// The edges by what they do in the marking: those between nodes that may be passed, in two parts, rising ones and falling ones, and those
// that come to stops.
ghost use Rattle.std.specs.Prelude.{◌≡◌, true, false, ◌+◌, ◌≤◌, ◌<◌, get_or, length, set};
ghost use Rattle.theory_paths.specs.Found.{Clear};
ghost use Rattle.search.specs.Parts.{row, PutIn, NotedIn, Split, Sized, Next};

use chart::format::Chart;

// Of the edges between nodes that may be passed the rising ones stand in front, up to `ups`, the falling ones at the back, from `low` on;
// of those to stops there are `ins`.
#[derive(Clone, Copy)]
pub struct Parts {
    pub ups: usize,
    pub low: usize,
    pub ins: usize,
}

// The rows of a table of edges: where all edges come from and where they lead, and so for the two kinds. An edge is split in two bytes, since a word
// an edge was measured slower (docs/PERFORMANCE.md).
impl Parts {
    pub const FROM: usize = 0;

    pub const TO: usize = 1;

    pub const PLAIN_FROM: usize = 2;

    pub const PLAIN_TO: usize = 3;

    pub const STOP_FROM: usize = 4;

    pub const STOP_TO: usize = 5;

    pub const ROWS: usize = 6;

    // Before the first edge.
    pub const NONE: Parts = Parts {
        ups: 0,
        low: Chart::EDGES,
        ins: 0,
    };
}

// How many barriers, sources of a search and nodes there are, and the parts of the edges. The barriers are the first of the sources: a function that
// is handed this takes the whole list of nodes with it, and no slice, since the list has these two ends.
#[derive(Clone, Copy)]
pub struct Extent {
    pub barriers: usize,
    pub total: usize,
    pub nodes: usize,
    pub parts: Parts,
}

// Whether the edge is between nodes that may be passed.
fn kept(stops: &[u8; Chart::NODES], from: u8, to: u8) -> bool
    requires { (from < 192) × (to < 192) }
    ensures clear { result ≡ true → Clear stops.now from × Clear stops.now to }
    ensures fact { result ≡ false → Clear stops.now from → Clear stops.now to → ⊥ }
{
    (stops[from as usize] | stops[to as usize]) == 0
}

// One edge more for the two parts. It is written whether it is kept or not, and counts where it is, so that no branch depends on it.
fn put(
    keep: bool,
    from: u8,
    to: u8,
    edges: &mut [[u8; Chart::EDGES]; Parts::ROWS],
    parts: Parts,
) -> Parts
    requires { (parts.ups < parts.low) × (parts.low ≤ 1024) × (length edges.old ≡ 6) }
    ensures { PutIn from to keep edges.old parts edges.new result }
{
    let rises = from < to;
    let at = if rises { parts.ups } else { parts.low - 1 };
    edges[Parts::PLAIN_FROM][at] = from;
    edges[Parts::PLAIN_TO][at] = to;
    Parts {
        ups: parts.ups + usize::from(keep & rises),
        low: parts.low - usize::from(keep & !rises),
        ..parts
    }
}

// One edge more for those to stops, where a stop stands on the node to which it leads.
fn note(
    stops: &[u8; Chart::NODES],
    from: u8,
    to: u8,
    edges: &mut [[u8; Chart::EDGES]; Parts::ROWS],
    parts: Parts,
) -> Parts
    requires { (parts.ins < 1024) × (to < 192) × (length edges.old ≡ 6) }
    ensures { NotedIn from to (get_or stops.now to 0) edges.old parts edges.new result }
{
    let at = parts.ins;
    edges[Parts::STOP_FROM][at] = from;
    edges[Parts::STOP_TO][at] = to;
    Parts {
        ins: at + usize::from(stops[to as usize] != 0),
        ..parts
    }
}

// One edge more, behind the first j, in all rows.
pub fn place(
    from: u8,
    to: u8,
    stops: &[u8; Chart::NODES],
    edges: &mut [[u8; Chart::EDGES]; Parts::ROWS],
    j: usize,
    parts: Parts,
) -> Parts
    requires { Next edges.old j stops.now parts from to }
    ensures split { Split edges.new (j + 1) stops.now result × Sized edges.new }
    ensures edges_after { (row edges.new 0 ≡ set (row edges.old 0) j from) × (row edges.new 1 ≡ set (row edges.old 1) j to) }
{
    edges[Parts::FROM][j] = from;
    edges[Parts::TO][j] = to;
    let parted = put(kept(stops, from, to), from, to, edges, parts);
    note(stops, from, to, edges, parted)
}
