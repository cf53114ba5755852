// The search, from up to 64 sources at once: for each node a mask with a bit for each source from which a path leads there, and forward
// the fewest edges on such a path. What the sources' edges lead to is closed by sweeps along the edges between nodes that may be passed,
// forward or with the edges turned round. The fewest edges are swept or searched, breadth first; where all paths begin at one source, they
// tell its masks, and no sweep is needed. Masks are 0 when a search gets them: its caller has just made them, and clearing them again costs.
ghost use Rattle.std.specs.Prelude.{◌≡◌, true, List, ℕ, ◌+◌, ◌≤◌, ◌<◌, get_or, length, replicate};
ghost use Rattle.search.specs.Parts.{row, Split};
ghost use Rattle.search.specs.Fed.{Sowed};
ghost use Rattle.search.specs.Levels.{Each, Begins};
ghost use Rattle.search.specs.Search.{Ready, Sown, Lone, Settled};
ghost use Rattle.search.specs.Promises.{Goes, Table, Arrives, Proceeds, Recedes, SpreadsAhead, GoesOn, Spreads, Boundaries, Gathers};

use crate::close::{FEW, close};
use crate::edges::{Extent, Parts};
use crate::levels::NONE;
use crate::nearest::{fewest, searched};
use crate::sources::{MOST_SOURCES, clear, feed, sow, stand};
use crate::telling::{show, tell};
use crate::together::close_together;
use chart::format::Chart;

// The bits of the sources, at the nodes to which their edges lead, and levels to start from.
fn depart(
    edges: &[[u8; Chart::EDGES]; Parts::ROWS],
    places: &[usize; Chart::PLACES],
    sources: &[u8],
    masks: &mut [u64; Chart::NODES],
    levels: &mut [u8; Chart::NODES],
)
    requires total_bound { (length sources.now ≤ 64) × (masks.old ≡ replicate 192 0) × ((parts : Parts) × Ready edges.now places.now parts) }
    requires by_index { (b : ℕ) → get_or sources.now b 0 < 192 }
    ensures sowed { Sowed (row edges.now 1) places.now sources.now (length sources.now) masks.new }
    ensures each { Each Begins masks.new levels.new }
{
    *levels = [NONE; Chart::NODES];
    sow(&edges[Parts::TO], places, sources, 0, masks, levels);
}

// The bits of the sources that are no barriers. They bring no levels, and what sowing notes of them is left.
fn depart_more(
    edges: &[[u8; Chart::EDGES]; Parts::ROWS],
    places: &[usize; Chart::PLACES],
    extent: Extent,
    sources: &[u8; MOST_SOURCES],
    levels: &[u8; Chart::NODES],
    masks: &mut [u64; Chart::NODES],
)
    requires barriers_le_total { (extent.barriers ≤ extent.total) × (extent.total ≤ 64) × Ready edges.now places.now extent.parts }
    requires by_index { (b : ℕ) → get_or sources.now b 0 < 192 }
    requires sowed { Sowed (row edges.now 1) places.now sources.now extent.barriers masks.old × Each Begins masks.old levels.now }
    ensures { Sowed (row edges.now 1) places.now sources.now extent.total masks.new }
{
    if extent.total == extent.barriers {
        return;
    }
    let mut noted = *levels;
    sow(
        &edges[Parts::TO],
        places,
        &sources[..extent.total],
        extent.barriers,
        masks,
        &mut noted,
    );
}

// On from there, past no stop.
fn proceed(edges: &[[u8; Chart::EDGES]; Parts::ROWS], parts: Parts, masks: &mut [u64; Chart::NODES])
    requires table { Table edges.now parts }
    requires masks_len { (length masks.old ≡ 192) × ((y : ℕ) → get_or masks.old y 0 < 18446744073709551616) }
    ensures { Proceeds edges.now parts masks.old masks.new }
{
    close(
        &edges[Parts::PLAIN_FROM],
        &edges[Parts::PLAIN_TO],
        parts.ups,
        parts.low,
        false,
        masks,
    );
}

// Forward, from any sources.
pub fn ahead(
    edges: &[[u8; Chart::EDGES]; Parts::ROWS],
    places: &[usize; Chart::PLACES],
    parts: Parts,
    sources: &[u8],
    masks: &mut [u64; Chart::NODES],
)
    requires total_bound { (length sources.now ≤ 64) × (masks.old ≡ replicate 192 0) × Ready edges.now places.now parts }
    requires by_index { (b : ℕ) → get_or sources.now b 0 < 192 }
    ensures { SpreadsAhead edges.now places.now parts sources.now (length sources.now) masks.new }
{
    let mut levels = [0u8; Chart::NODES];
    depart(edges, places, sources, masks, &mut levels);
    proceed(edges, parts, masks);
}

// Backward, the bits of the stops, at the nodes from which edges lead to them.
fn arrive(
    edges: &[[u8; Chart::EDGES]; Parts::ROWS],
    parts: Parts,
    sources: &[u8],
    masks: &mut [u64; Chart::NODES],
)
    requires total_bound { (length sources.now ≤ 64) × (masks.old ≡ replicate 192 0) × ((b : ℕ) → get_or sources.now b 0 < 192) }
    requires table { Table edges.now parts }
    ensures arrives { Arrives edges.now parts sources.now (length sources.now) masks.new }
    ensures masks_len { (length masks.new ≡ 192) × ((y : ℕ) → get_or masks.new y 0 < 18446744073709551616) }
{
    let mut own = [0u64; Chart::NODES];
    stand(sources, &mut own);
    feed(
        &edges[Parts::STOP_TO][..parts.ins],
        &edges[Parts::STOP_FROM][..parts.ins],
        &own,
        masks,
    );
}

// On from there, past no stop.
fn recede(edges: &[[u8; Chart::EDGES]; Parts::ROWS], parts: Parts, masks: &mut [u64; Chart::NODES])
    requires table { Table edges.now parts }
    requires masks_len { (length masks.old ≡ 192) × ((y : ℕ) → get_or masks.old y 0 < 18446744073709551616) }
    ensures { Recedes edges.now parts masks.old masks.new }
{
    close(
        &edges[Parts::PLAIN_TO],
        &edges[Parts::PLAIN_FROM],
        parts.ups,
        parts.low,
        true,
        masks,
    );
}

// Whether all paths begin at the first source: there are two, both barriers, and no edge leaves the second.
fn lone(places: &[usize; Chart::PLACES], sources: &[u8; MOST_SOURCES], extent: Extent) -> bool
    requires { (b : ℕ) → get_or sources.now b 0 < 192 }
    ensures { result ≡ true → (extent.barriers ≡ extent.total) × Lone places.now sources.now extent.total }
{
    let second = sources[1] as usize;
    extent.barriers == 2 && extent.total == 2 && places[second] == places[second + 1]
}

// On from there where all paths begin at the first source: its bit is where there is a level. The two stops keep what the edges brought,
// since their levels say nothing.
fn settle(
    sources: &[u8; MOST_SOURCES],
    levels: &[u8; Chart::NODES],
    masks: &mut [u64; Chart::NODES],
)
    requires by_index { (b : ℕ) → get_or sources.now b 0 < 192 }
    requires masks_len { length masks.old ≡ 192 }
    ensures { Settled sources.now levels.now masks.old masks.new }
{
    let first = sources[0] as usize;
    let second = sources[1] as usize;
    let at_first = masks[first];
    let at_second = masks[second];
    show(levels, masks);
    masks[first] = at_first;
    masks[second] = at_second;
}

// On from there, by the levels where they tell the masks.
fn onward(
    edges: &[[u8; Chart::EDGES]; Parts::ROWS],
    places: &[usize; Chart::PLACES],
    extent: Extent,
    sources: &[u8; MOST_SOURCES],
    levels: &[u8; Chart::NODES],
    masks: &mut [u64; Chart::NODES],
)
    requires total_bound { (extent.total ≤ 64) × ((b : ℕ) → get_or sources.now b 0 < 192) }
    requires by_index { (e : ℕ) × (stops : List ℕ) × Split edges.now e stops extent.parts × Sown (Goes edges.now e) sources.now extent.total masks.old }
    ensures goes_on { GoesOn edges.now places.now extent sources.now levels.now masks.old masks.new }
    ensures masks_len { length masks.new ≡ 192 }
{
    if lone(places, sources, extent) {
        settle(sources, levels, masks);
    } else {
        proceed(edges, extent.parts, masks);
    }
}

// Whether both lists are short.
fn few(parts: Parts) -> bool
    requires { parts.low ≤ 1024 }
{
    parts.ups < FEW && Chart::EDGES - parts.low < FEW
}

// On from there in both directions, with the levels: swept together along few edges. Along many none waits for what it has just written, and each
// by itself takes no more turns than it needs.
fn spread(
    edges: &[[u8; Chart::EDGES]; Parts::ROWS],
    places: &[usize; Chart::PLACES],
    extent: Extent,
    nodes: &[u8; MOST_SOURCES],
    starts: &mut [u64; Chart::NODES],
    levels: &mut [u8; Chart::NODES],
    ends: &mut [u64; Chart::NODES],
)
    requires barriers_le_total { (extent.barriers ≤ extent.total) × (extent.total ≤ 64) × ((b : ℕ) → get_or nodes.now b 0 < 192) × ((own : List ℕ) × Each Begins own levels.old) }
    requires sown { (ready : Ready edges.now places.now extent.parts) × Sown (Goes edges.now ready.count) nodes.now extent.total starts.old }
    requires ends_len { (length ends.old ≡ 192) × ((y : ℕ) → get_or ends.old y 0 < 18446744073709551616) }
    ensures spreads { Spreads edges.now places.now extent nodes.now
        starts.old levels.old ends.old starts.new levels.new ends.new }
    ensures starts_len { length starts.new ≡ 192 }
{
    if few(extent.parts) {
        if close_together(edges, extent.parts, starts, levels, ends) {
            tell(levels);
        } else {
            searched(edges, places, &nodes[..extent.barriers], levels);
        }
    } else {
        fewest(edges, places, extent, nodes, levels);
        onward(edges, places, extent, nodes, levels, starts);
        recede(edges, extent.parts, ends);
    }
}

// From the stops, forward and backward: the masks of the nodes that may be passed, and the levels. The starts of the stops are not told yet. From the
// sources that are no stops forward alone.
pub fn boundaries(
    edges: &[[u8; Chart::EDGES]; Parts::ROWS],
    places: &[usize; Chart::PLACES],
    extent: Extent,
    nodes: &[u8; MOST_SOURCES],
    starts: &mut [u64; Chart::NODES],
    levels: &mut [u8; Chart::NODES],
    ends: &mut [u64; Chart::NODES],
)
    requires barriers_le_total { (extent.barriers ≤ extent.total) × (extent.total ≤ 64) × (starts.old ≡ replicate 192 0) × (ends.old ≡ replicate 192 0) × Ready edges.now places.now extent.parts }
    requires by_index { (b : ℕ) → get_or nodes.now b 0 < 192 }
    ensures boundaries { Boundaries edges.now places.now extent nodes.now
        starts.new levels.new ends.new }
    ensures starts_len { length starts.new ≡ 192 }
{
    let barriers = &nodes[..extent.barriers];
    depart(edges, places, barriers, starts, levels);
    depart_more(edges, places, extent, nodes, levels, starts);
    arrive(edges, extent.parts, barriers, ends);
    spread(edges, places, extent, nodes, starts, levels, ends);
    clear(barriers, ends);
}

// The starts of all nodes, of which the stops keep none.
pub fn reach_stops(
    edges: &[[u8; Chart::EDGES]; Parts::ROWS],
    extent: Extent,
    nodes: &[u8; MOST_SOURCES],
    starts: &mut [u64; Chart::NODES],
    all: &mut [u64; Chart::NODES],
)
    requires { (extent.barriers ≤ 64) × ((b : ℕ) → get_or nodes.now b 0 < 192) × (length starts.old ≡ 192) × Table edges.now extent.parts }
    ensures { Gathers edges.now extent.parts nodes.now extent.barriers starts.old starts.new all.new }
{
    *all = *starts;
    clear(&nodes[..extent.barriers], starts);
    feed(
        &edges[Parts::STOP_FROM][..extent.parts.ins],
        &edges[Parts::STOP_TO][..extent.parts.ins],
        starts,
        all,
    );
}
