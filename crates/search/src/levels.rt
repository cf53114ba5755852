// Levels closed along edges: a node's level is at most one more than that of a node before it.
ghost use Rattle.std.specs.Prelude.{◌≡◌, true, false, ℕ, ◌≤◌, ◌<◌, get_or, length};
ghost use Rattle.search.specs.Sweep.{Lies, Run, Carried, Closed, Lists};
ghost use Rattle.search.specs.LevelLaws.{nearer, Follows, Risen};

use crate::close::{STEPS, steps_of};
use chart::format::Chart;

// No level, while levels are swept. It is a number above all levels and no `None`: the loops along edges compare it as it is, with no branch.
pub const NONE: u8 = 254;

// The level of a node that had this one, when an edge leads there from a node at the other: one more, where that is fewer. The levels are compared
// as they are, so that neither the sum nor the comparison waits for the other.
fn lowered(old: u8, before: u8) -> u8
    requires { before ≤ 254 }
    ensures { result ≡ nearer old before }
{
    if before < old { before + 1 } else { old }
}

// Along an edge from x to y; the level of y.
pub fn ascend(levels: &mut [u8; Chart::NODES], x: u8, y: u8) -> u8
    requires { (length levels.old ≡ 192) × (x < 192) × (y < 192) × (get_or levels.old x 0 ≤ 254) }
    ensures { Risen x y levels.old levels.new result }
{
    let to = y as usize;
    let all = lowered(levels[to], levels[x as usize]);
    levels[to] = all;
    all
}

// Along the edges from place a up to place b; what is new, 0 when nothing is.
fn sweep(
    keys: &[u8; Chart::EDGES],
    values: &[u8; Chart::EDGES],
    a: usize,
    b: usize,
    levels: &mut [u8; Chart::NODES],
) -> u8
    requires a_le_b { (a ≤ b) × (b ≤ 1024) × (length levels.old ≡ 192) × ((y : ℕ) → get_or levels.old y 0 ≤ 254) }
    requires by_index { ((j : ℕ) → get_or keys.now j 0 < 192) × ((j : ℕ) → get_or values.now j 0 < 192) }
    ensures { Run nearer keys.now values.now a b false levels.old b levels.new result }
{
    let mut new = 0;
    for j in a..b {
        let old = levels[values[j] as usize];
        new |= ascend(levels, keys[j], values[j]) ^ old;
    }
    new
}

// Along the rising edges and the falling ones by turns, until nothing is new; whether `STEPS` were enough.
pub fn measure(
    keys: &[u8; Chart::EDGES],
    values: &[u8; Chart::EDGES],
    ups: usize,
    low: usize,
    levels: &mut [u8; Chart::NODES],
) -> bool
    requires lists { Lists keys.now values.now ups low false × (length levels.old ≡ 192) }
    requires by_index { (y : ℕ) → get_or levels.old y 0 ≤ 254 }
    ensures carried { Carried nearer (Lies keys.now values.now ups low) levels.old levels.new }
    ensures closed { result ≡ true → Closed Follows (Lies keys.now values.now ups low) levels.new }
{
    let mut new = sweep(keys, values, 0, ups, levels);
    new = sweep(keys, values, low, Chart::EDGES, levels);
    let turn = steps_of(ups, low);
    let mut left = STEPS;
    while new != 0 {
        if left < turn {
            return false;
        }
        left -= turn;
        new = sweep(keys, values, 0, ups, levels);
        if new != 0 {
            new = sweep(keys, values, low, Chart::EDGES, levels);
        }
    }
    true
}
