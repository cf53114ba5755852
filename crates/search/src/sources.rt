// What comes along edges once: the sources' bits, from their nodes to those to which their edges lead, and what masks bring to the stops;
// and levels, as they begin and as they are told.
ghost use Rattle.std.specs.Prelude.{◌≡◌, [], ◌∷◌, ℕ, ◌≤◌, ◌<◌, get_or, length};
ghost use Rattle.search.specs.Sweep.{Between};
ghost use Rattle.search.specs.Fed.{Fed, Owned, Sowed, Stored};
ghost use Rattle.search.specs.Levels.{Each, Begins};
ghost use Rattle.search.specs.Steps.{Bounded};

use chart::format::Chart;
use masks::bits::bit;

// A search starts from at most so many nodes, numbered as the bits of its masks: barriers, ends of constructs, or both, barriers first.
pub const MOST_SOURCES: usize = 64;

// Along edges, each from its key to its value.
pub fn feed(keys: &[u8], values: &[u8], from: &[u64; Chart::NODES], masks: &mut [u64; Chart::NODES])
    requires same_len { (length keys.now ≡ length values.now) × (length masks.old ≡ 192) }
    requires by_index { (j : ℕ) → get_or keys.now j 0 < 192 }
    requires by_index_2 { (j : ℕ) → get_or values.now j 0 < 192 }
    ensures { Fed (Between keys.now values.now 0 (length keys.now)) from.now masks.old masks.new }
{
    for (x, y) in keys.iter().zip(values) {
        let bits = from[*x as usize];
        masks[*y as usize] |= bits;
    }
}

// A source's bit along its edges. A node that one leads to has level 1.
fn sow_edges(
    values: &[u8],
    own: u64,
    masks: &mut [u64; Chart::NODES],
    levels: &mut [u8; Chart::NODES],
)
    requires some { (0 < own) × (length masks.old ≡ 192) × Each Begins masks.old levels.old }
    requires by_index { (j : ℕ) → get_or values.now j 0 < 192 }
    ensures fed { Fed (Between [] values.now 0 (length values.now)) (own ∷ []) masks.old masks.new }
    ensures each { Each Begins masks.new levels.new }
{
    for y in values {
        let at = *y as usize;
        masks[at] |= own;
        levels[at] = 1;
    }
}

// The bits of the sources from the first given on, at the nodes to which their edges lead, where those of the sources before it are, and levels to
// start from.
pub fn sow(
    values: &[u8; Chart::EDGES],
    places: &[usize; Chart::PLACES],
    sources: &[u8],
    first: usize,
    masks: &mut [u64; Chart::NODES],
    levels: &mut [u8; Chart::NODES],
)
    requires first_le_total { (first ≤ length sources.now) × (length sources.now ≤ 64) × Bounded values.now places.now }
    requires sowed { Sowed values.now places.now sources.now first masks.old × Each Begins masks.old levels.old }
    requires by_index { (b : ℕ) → get_or sources.now b 0 < 192 }
    ensures sowed_2 { Sowed values.now places.now sources.now (length sources.now) masks.new }
    ensures each { Each Begins masks.new levels.new }
{
    for b in first..sources.len() {
        let x = sources[b] as usize;
        sow_edges(&values[places[x]..places[x + 1]], bit(b), masks, levels);
    }
}

// Each source has its own bit at its node.
pub fn stand(sources: &[u8], own: &mut [u64; Chart::NODES])
    requires total_bound { length sources.now ≤ 64 }
    requires by_index { (b : ℕ) → get_or sources.now b 0 < 192 }
    ensures { Owned sources.now (length sources.now) own.new }
{
    *own = [0u64; Chart::NODES];
    for (b, x) in sources.iter().enumerate() {
        own[*x as usize] |= bit(b);
    }
}

// The masks of the sources become 0.
pub fn clear(nodes: &[u8], masks: &mut [u64; Chart::NODES])
    requires { (b : ℕ) → get_or nodes.now b 0 < 192 }
    ensures { Stored 0 nodes.now (length nodes.now) masks.old masks.new }
{
    for x in nodes {
        masks[*x as usize] = 0;
    }
}

// The sources have a mark for a level.
pub fn mark(nodes: &[u8], levels: &mut [u8; Chart::NODES])
    requires levels_before { length levels.old ≡ 192 }
    requires by_index { (b : ℕ) → get_or nodes.now b 0 < 192 }
    ensures stored { Stored 1 nodes.now (length nodes.now) levels.old levels.new }
    ensures levels_len { length levels.new ≡ 192 }
{
    for x in nodes {
        levels[*x as usize] = 1;
    }
}
