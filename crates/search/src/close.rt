// Masks closed along the edges of two lists, rising ones in front and falling ones at the back, in either direction.
ghost use Rattle.std.specs.Prelude.{◌≡◌, ℕ, ◌≤◌, ◌<◌, get_or, length};
ghost use Rattle.std.specs.Int.Bits.{bit_or};
ghost use Rattle.lists.specs.Mask.{Sub};
ghost use Rattle.search.specs.Sweep.{Lies, Step, Run, Carried, Closed, Lists, place};

use crate::waiting::drain;
use chart::format::Chart;

// Fewer edges than these are few.
pub const FEW: usize = 200;

// So many edges are passed, beyond the first two sweeps, before sweeps give way to what takes a bounded number of steps.
pub const STEPS: usize = 4096;

// What a turn along both lists takes of these, never nothing.
pub fn steps_of(ups: usize, low: usize) -> usize
    requires { (ups ≤ 1024) × (low ≤ 1024) }
    ensures { 0 < result }
{
    ups + (Chart::EDGES - low) + 1
}

// The place of turn j: from a up, or from b down.
pub fn place_of(a: usize, b: usize, j: usize, back: bool) -> usize
    requires { (a ≤ j) × (j < b) × (b ≤ 1024) }
    ensures { result ≡ place a b back j }
{
    if back { a + (b - 1 - j) } else { j }
}

// The bits of x come to y; what is new. Along many edges nothing is written where nothing is new, as mostly where sweeps are many; along few
// ones every mask is, since on a chart that was not seen before whether something is new is hard to tell ahead.
pub fn carry(masks: &mut [u64; Chart::NODES], x: u8, y: u8, few: bool) -> u64
    requires { (length masks.old ≡ 192) × (x < 192) × (y < 192) }
    ensures { Step bit_or x y masks.old masks.new result }
{
    let to = y as usize;
    let old = masks[to];
    let all = old | masks[x as usize];
    if all == old && !few {
        return 0;
    }
    masks[to] = all;
    all ^ old
}

// Along the edges from place a up to place b; what is new, 0 when nothing is. A sweep has the whole table and the places, and no slices of it: `Run`
// and `Lies` in specs/ speak of places.
fn sweep(
    keys: &[u8; Chart::EDGES],
    values: &[u8; Chart::EDGES],
    a: usize,
    b: usize,
    back: bool,
    masks: &mut [u64; Chart::NODES],
) -> u64
    requires a_le_b { (a ≤ b) × (b ≤ 1024) × (length masks.old ≡ 192) }
    requires by_index { (j : ℕ) → get_or keys.now j 0 < 192 }
    requires by_index_2 { (j : ℕ) → get_or values.now j 0 < 192 }
    ensures { Run bit_or keys.now values.now a b back masks.old b masks.new result }
{
    let few = b - a < FEW;
    let mut new = 0;
    for j in a..b {
        let at = place_of(a, b, j, back);
        new |= carry(masks, keys[at], values[at], few);
    }
    new
}

// Along the rising edges and the falling ones by turns, until nothing is new. That takes many turns where the nodes' numbers tell little of the
// paths through them: there nodes that wait do the rest.
// These turns, those of `measure` and those of `close_together` are no one function that is handed its sweep: the proof did not close, since a
// caller learns nothing of the tables that a closure has changed.
pub fn close(
    keys: &[u8; Chart::EDGES],
    values: &[u8; Chart::EDGES],
    ups: usize,
    low: usize,
    back: bool,
    masks: &mut [u64; Chart::NODES],
)
    requires lists { Lists keys.now values.now ups low back × (length masks.old ≡ 192) }
    requires by_index { (y : ℕ) → get_or masks.old y 0 < 18446744073709551616 }
    ensures carried { Carried bit_or (Lies keys.now values.now ups low) masks.old masks.new }
    ensures closed { Closed Sub (Lies keys.now values.now ups low) masks.new }
{
    let mut new = sweep(keys, values, 0, ups, back, masks);
    new = sweep(keys, values, low, Chart::EDGES, back, masks);
    let turn = steps_of(ups, low);
    let mut left = STEPS;
    while new != 0 {
        if left < turn {
            drain(keys, values, ups, low, masks);
            return;
        }
        left -= turn;
        new = sweep(keys, values, 0, ups, back, masks);
        if new != 0 {
            new = sweep(keys, values, low, Chart::EDGES, back, masks);
        }
    }
}
