// Which constructs return: a search from their ends, past no barrier, with that from the barriers where a mask has room for both.
ghost use Rattle.std.specs.Prelude.{◌≡◌, true, false, cond, List, ℕ, ◌+◌, ◌^◌, ◌≤◌, ◌<◌, get_or, length};
ghost use Rattle.std.specs.Int.Bits.{bit_or};
ghost use Rattle.lists.specs.Mask.{mask_of};
ghost use Rattle.lists.specs.Bits.{has as has_bit};
ghost use Rattle.chart.specs.Format.{decode, construct_at};
ghost use Rattle.chart.specs.Scope.{begin_node, end_node, kind_of};
ghost use Rattle.chart.specs.Checked.{Laid, reading};
ghost use Rattle.check_nodes.specs.Framed.{Framed};
ghost use Rattle.mark_tables.specs.Tables.{Accepted, asks_return};
ghost use Rattle.search.specs.Levels.{Each};
ghost use Rattle.search.specs.Search.{Ready};
ghost use Rattle.mark.specs.Joined.{ArrangedBy};
ghost use Rattle.mark.specs.Returning.{Asked, Added, First, Barred, TellsReturned};

use chart::format::{Chart, Construct, Frames, Framing};
use masks::bits::{bit, has};
use search::edges::{Extent, Parts};
use search::search::ahead;
use search::sources::MOST_SOURCES;

// One bit more, where the mask has it.
fn add_bit(mask: u64, c: usize, all: u64) -> u64
    requires { c < 64 }
    ensures { result ≡ cond (has_bit mask c) (bit_or (2 ^ c) all) all }
{
    if has(mask, c) { bit(c) | all } else { all }
}

// Bit first + c of the mask of node c, for each of the nodes.
fn diagonal(masks: &[u64; Chart::NODES], nodes: &[u8], first: usize) -> u64
    requires first_bound { (first < 64) × (length nodes.now ≤ 64) }
    requires by_index { (c : ℕ) → get_or nodes.now c 0 < 192 }
    ensures { result ≡ mask_of (λ c. has_bit (get_or masks.now (get_or nodes.now c 0) 0) (first + c)) (length nodes.now) }
{
    let mut all = 0;
    for (c, x) in nodes.iter().enumerate() {
        all = add_bit(masks[*x as usize] >> first, c, all);
    }
    all
}

// The masks keep the bits of the first k sources.
fn keep_first(masks: &mut [u64; Chart::NODES], k: usize)
    requires { (k < 64) × (length masks.old ≡ 192) }
    ensures { Each (First k) masks.old masks.new }
{
    let above = bit(k);
    for mask in masks.iter_mut() {
        *mask %= above;
    }
}

// Whether each of the first n constructs begins before it ends, by the numbers of the nodes.
fn all_before(framing: &Framing, n: usize) -> bool
    requires { n ≤ 64 }
    ensures { result ≡ true → (c : ℕ) → c < n → get_or framing.now.begins c 0 < get_or framing.now.ends c 0 }
{
    (0..n).all(|c| framing.begins[c] < framing.ends[c])
}

// Whether a rule asks of a construct of this kind whether it returns.
fn asks(kind: u8) -> bool
    ensures { result ≡ asks_return (kind_of kind) }
{
    kind == Construct::SINGLE || kind == Construct::DO || kind == Construct::SECTIONS
}

// Whether there is such a construct.
fn any_asked(s: &[u8], chart: Chart) -> bool
    requires { Laid s.now chart }
    ensures { result ≡ false → (c : ℕ) → c < chart.constructs → asks_return (kind_of (construct_at (decode s.now).constructs c).kind) ≡ false }
{
    (0..chart.constructs).any(|c| asks(Construct::read(s, chart, c).kind))
}

// Of how many constructs it is asked whether they return: of all or, where no rule asks, of none. Where no edge falls between nodes that are
// no barriers, no path leads back.
pub fn asked(s: &[u8], chart: Chart, framing: &Framing, parts: Parts) -> usize
    requires accepted { Accepted s.now chart × Framed (decode s.now) begin_node framing.now.begins × Framed (decode s.now) end_node framing.now.ends }
    requires by_index { (edges : List (List ℕ)) × (places : List ℕ) × ArrangedBy (reading s.now chart) edges places parts }
    ensures { Asked s.now chart result }
{
    if !any_asked(s, chart) {
        return 0;
    }
    let n = chart.constructs;
    if parts.low == Chart::EDGES && all_before(framing, n) {
        0
    } else {
        n
    }
}

// The ends of the first n constructs behind the barriers, where there is room for all, and how many nodes there are then.
pub fn add_ends(ends: &Frames, n: usize, barriers: usize, nodes: &mut [u8; MOST_SOURCES]) -> usize
    requires { (barriers ≤ 64) × (n ≤ 64) × (length nodes.old ≡ 64) }
    ensures { Added ends.now n barriers nodes.old result nodes.new }
{
    if MOST_SOURCES < barriers + n {
        return barriers;
    }
    for c in 0..n {
        nodes[barriers + c] = ends[c];
    }
    barriers + n
}

// The mask of the constructs that return, as far as it is asked, given where each begins and ends: off the starts, which keep the bits of the
// barriers, or by a search from the ends alone where there was no room for them.
pub fn returns(
    framing: &Framing,
    n: usize,
    edges: &[[u8; Chart::EDGES]; Parts::ROWS],
    places: &[usize; Chart::PLACES],
    extent: Extent,
    starts: &mut [u64; Chart::NODES],
) -> u64
    requires n_bound { (n ≤ 64) × (extent.barriers ≤ extent.total) × (extent.total ≤ 64) × (n ≡ 0 → extent.total ≡ extent.barriers) × (length starts.old ≡ 192)
        × Ready edges.now places.now extent.parts }
    requires by_index { ((c : ℕ) → get_or framing.now.begins c 0 < 192) × ((c : ℕ) → get_or framing.now.ends c 0 < 192) }
    ensures tells_returned { TellsReturned edges.now places.now extent framing.now.begins framing.now.ends n starts.old result }
    ensures barred { Barred edges.now extent starts.old starts.new }
{
    if n == 0 {
        return 0;
    }
    if extent.total == extent.barriers {
        let mut masks = [0u64; Chart::NODES];
        ahead(edges, places, extent.parts, &framing.ends[..n], &mut masks);
        diagonal(&masks, &framing.begins[..n], 0)
    } else {
        let all = diagonal(starts, &framing.begins[..n], extent.barriers);
        keep_first(starts, extent.barriers);
        all
    }
}
