// Masks closed along the edges of two lists by a ring of nodes that wait: those whose masks have grown since they last passed them on. A node
// is held while it waits, so that it stands in the ring once. Each mask grows at most 64 times, so that the steps are bounded by the nodes and
// edges, whatever the order of the edges.
ghost use Rattle.std.specs.Prelude.{◌≡◌, ℕ, ◌≤◌, ◌<◌, get_or, length, replicate};
ghost use Rattle.std.specs.Int.Bits.{bit_or};
ghost use Rattle.lists.specs.Mask.{Sub};
ghost use Rattle.lists.specs.Store.{filled};
ghost use Rattle.search.specs.Sweep.{Lies, Carried, Closed};
ghost use Rattle.search.specs.Waiting.{Upto, Linked, Links, Fits, Full, Visited, Walk};

use chart::format::Chart;

// The ring has room for every node.
const RING: usize = 256;

// The entries of the ring: so many, from place `head` on. The ring is no queue of a library, as there is no heap.
#[derive(Clone, Copy)]
pub struct Queue {
    pub head: usize,
    pub waiting: usize,
}

// What a node passes on, and one more than the place of its last edge, 0 where it has none: so `Linked` in specs/ has these numbers, and a table of
// them needs no more room than one of places.
#[derive(Clone, Copy)]
pub struct Sent {
    pub bits: u64,
    pub first: usize,
}

// For each edge from place a up to place b one more than the place of the edge before it that leaves the same node, 0 where there is none; for each
// node one more than the place of its last edge.
fn link(
    keys: &[u8; Chart::EDGES],
    a: usize,
    b: usize,
    last: &mut [u16; Chart::NODES],
    before: &mut [u16; Chart::EDGES],
)
    requires a_le_b { (a ≤ b) × (b ≤ 1024) × ((j : ℕ) → get_or keys.now j 0 < 192) }
    requires by_index { (u : ℕ) × (u ≤ a) × Linked keys.now (Upto u a a) last.old before.old }
    ensures { Links keys.now a b last.old before.old last.new before.new }
{
    for j in a..b {
        let x = keys[j] as usize;
        before[j] = last[x];
        last[x] = (j + 1) as u16;
    }
}

// The bits come to node y. If its mask grows, it waits. How many wait then.
fn visit(
    bits: u64,
    y: u8,
    masks: &mut [u64; Chart::NODES],
    held: &mut [u8; Chart::NODES],
    ring: &mut [u8; RING],
    queue: Queue,
) -> usize
    requires { Fits masks.old held.old ring.old queue.head queue.waiting × (y < 192) }
    ensures visited { Visited bits y queue.head masks.old held.old ring.old queue.waiting
        masks.new held.new ring.new result }
    ensures upper_bound { result ≤ filled held.new }
{
    let at = y as usize;
    let old = masks[at];
    let all = old | bits;
    if all == old {
        return queue.waiting;
    }
    masks[at] = all;
    if held[at] != 0 {
        return queue.waiting;
    }
    held[at] = 1;
    ring[(queue.head + queue.waiting) % RING] = y;
    queue.waiting + 1
}

// What a node passes on comes to the nodes to which its edges lead. How many wait then.
fn pass_on(
    values: &[u8; Chart::EDGES],
    before: &[u16; Chart::EDGES],
    sent: Sent,
    masks: &mut [u64; Chart::NODES],
    held: &mut [u8; Chart::NODES],
    ring: &mut [u8; RING],
    queue: Queue,
) -> usize
    requires fits { Fits masks.old held.old ring.old queue.head queue.waiting × (sent.first ≤ 1024) }
    requires by_index { ((j : ℕ) → get_or values.now j 0 < 192) × ((j : ℕ) → get_or before.now j 0 ≤ j) }
    ensures walk { Walk values.now before.now sent.bits queue.head sent.first
        masks.old held.old ring.old queue.waiting 0 masks.new held.new ring.new result }
    ensures upper_bound { result ≤ filled held.new }
{
    let head = queue.head;
    let mut waiting = queue.waiting;
    let mut j = sent.first;
    while j != 0 {
        let at = j - 1;
        let present = Queue { head, waiting };
        waiting = visit(sent.bits, values[at], masks, held, ring, present);
        j = before[at] as usize;
    }
    waiting
}

// Every node waits.
fn enter_all(held: &mut [u8; Chart::NODES], ring: &mut [u8; RING])
    requires { (held.old ≡ replicate 192 0) × (length ring.old ≡ 256) }
    ensures { Full held.new ring.new }
{
    for x in 0..Chart::NODES {
        held[x] = 1;
        ring[x] = x as u8;
    }
}

pub fn drain(
    keys: &[u8; Chart::EDGES],
    values: &[u8; Chart::EDGES],
    ups: usize,
    low: usize,
    masks: &mut [u64; Chart::NODES],
)
    requires ups_le_low { (ups ≤ low) × (low ≤ 1024) × (length masks.old ≡ 192) }
    requires by_index { ((j : ℕ) → get_or keys.now j 0 < 192) × ((j : ℕ) → get_or values.now j 0 < 192) }
    requires by_index_2 { (y : ℕ) → get_or masks.old y 0 < 18446744073709551616 }
    ensures carried { Carried bit_or (Lies keys.now values.now ups low) masks.old masks.new }
    ensures closed { Closed Sub (Lies keys.now values.now ups low) masks.new }
{
    let mut last = [0u16; Chart::NODES];
    let mut before = [0u16; Chart::EDGES];
    link(keys, 0, ups, &mut last, &mut before);
    link(keys, low, Chart::EDGES, &mut last, &mut before);
    let mut held = [0u8; Chart::NODES];
    let mut ring = [0u8; RING];
    enter_all(&mut held, &mut ring);
    let mut head = 0;
    let mut n = Chart::NODES;
    while 0 < n {
        let x = ring[head] as usize;
        head = (head + 1) % RING;
        held[x] = 0;
        let bits = masks[x];
        let first = last[x] as usize;
        let waiting = n - 1;
        let queue = Queue { head, waiting };
        let sent = Sent { bits, first };
        n = pass_on(values, &before, sent, masks, &mut held, &mut ring, queue);
    }
}
