// Starts, levels and ends closed together: starts and levels along the edges of the two lists, ends against them. A sweep mostly waits for what it
// has just written, and three side by side wait no longer than one.
ghost use Rattle.std.specs.Prelude.{◌≡◌, true, ℕ, ◌≤◌, ◌<◌, get_or};
ghost use Rattle.search.specs.Sweep.{Lies, Carried, Closed};
ghost use Rattle.search.specs.LevelLaws.{nearer, Follows};
ghost use Rattle.search.specs.Parts.{row};
ghost use Rattle.search.specs.Together.{Together, Lent, Shut};
ghost use Rattle.search.specs.Promises.{Table};

use crate::close::{STEPS, carry, place_of, steps_of};
use crate::edges::Parts;
use crate::levels::ascend;
use crate::waiting::drain;
use chart::format::Chart;

// Along the edges from place a up to place b; what is new, 0 when nothing is. The steps are those of the sweeps of `close` and `measure`, in one loop
// since they run side by side.
fn sweep(
    edges: &[[u8; Chart::EDGES]; Parts::ROWS],
    a: usize,
    b: usize,
    starts: &mut [u64; Chart::NODES],
    levels: &mut [u8; Chart::NODES],
    ends: &mut [u64; Chart::NODES],
) -> u64
    requires a_le_b { (a ≤ b) × (b ≤ 1024) × Lent starts.old levels.old ends.old }
    requires by_index { ((j : ℕ) → get_or (row edges.now 2) j 0 < 192) × ((j : ℕ) → get_or (row edges.now 3) j 0 < 192) }
    ensures { Together (row edges.now 2) (row edges.now 3) a b starts.old levels.old ends.old b
        starts.new levels.new ends.new result }
{
    let keys = &edges[Parts::PLAIN_FROM];
    let values = &edges[Parts::PLAIN_TO];
    let mut new = 0;
    for j in a..b {
        let x = keys[j];
        let y = values[j];
        new |= carry(starts, x, y, true);
        let old = levels[y as usize];
        new |= (ascend(levels, x, y) ^ old) as u64;
        let at = place_of(a, b, j, true);
        new |= carry(ends, values[at], keys[at], true);
    }
    new
}

// Along the rising edges and the falling ones by turns, until nothing is new. Where that takes long, nodes that wait do the rest of starts and ends.
// Whether the levels are closed as well.
pub fn close_together(
    edges: &[[u8; Chart::EDGES]; Parts::ROWS],
    parts: Parts,
    starts: &mut [u64; Chart::NODES],
    levels: &mut [u8; Chart::NODES],
    ends: &mut [u64; Chart::NODES],
) -> bool
    requires { Table edges.now parts × Lent starts.old levels.old ends.old }
    ensures shut { Shut (row edges.now 2) (row edges.now 3) parts.ups parts.low starts.old starts.new }
    ensures shut_2 { Shut (row edges.now 3) (row edges.now 2) parts.ups parts.low ends.old ends.new }
    ensures carried { Carried nearer (Lies (row edges.now 2) (row edges.now 3) parts.ups parts.low) levels.old levels.new }
    ensures closed { result ≡ true → Closed Follows (Lies (row edges.now 2) (row edges.now 3) parts.ups parts.low) levels.new }
{
    let turn = steps_of(parts.ups, parts.low);
    let mut new = sweep(edges, 0, parts.ups, starts, levels, ends);
    new = sweep(edges, parts.low, Chart::EDGES, starts, levels, ends);
    let mut left = STEPS;
    while new != 0 {
        if left < turn {
            let from = &edges[Parts::PLAIN_FROM];
            let to = &edges[Parts::PLAIN_TO];
            drain(from, to, parts.ups, parts.low, starts);
            drain(to, from, parts.ups, parts.low, ends);
            return false;
        }
        left -= turn;
        new = sweep(edges, 0, parts.ups, starts, levels, ends);
        if new != 0 {
            new = sweep(edges, parts.low, Chart::EDGES, starts, levels, ends);
        }
    }
    true
}
