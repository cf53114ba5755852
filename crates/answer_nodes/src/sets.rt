// For each bit of the nodes' masks the nodes that have it, 64 nodes at a time.
ghost use Rattle.std.specs.Prelude.{◌≡◌, ℕ, ◌+◌, ◌≤◌, ◌<◌, length, replicate};
ghost use Rattle.answer_nodes.specs.Gathered.{pending, Past, Taken, Gathered};

use chart::format::Chart;
use masks::bits::bit;
use masks::unions::{BITS, add};

// Neighbours that have one mask, closed nodes among them left out: they are added to the sets of its bits together.
#[derive(Clone, Copy)]
pub struct Run {
    pub mask: u64,
    pub set: u64,
}

// Node j of the 64 joins the run, or else the run is added and the node starts another.
fn take(sets: &mut [u64; BITS], run: Run, closed: u8, mask: u64, j: usize) -> Run
    requires { (length sets.old ≡ 64) × (j < 64) }
    ensures { (length sets.new ≡ 64) × Taken closed mask j (pending sets.old run.mask run.set) (pending sets.new result.mask result.set) }
{
    if closed != 0 {
        return run;
    }
    if mask == run.mask {
        return Run {
            mask,
            set: bit(j) | run.set,
        };
    }
    add(sets, run.mask, run.set);
    Run { mask, set: bit(j) }
}

// How many of the 64 places from `first` on are nodes.
fn count_from(first: usize, n: usize) -> usize
    ensures { (result ≤ 64) × ((j : ℕ) → result ≤ j → j < 64 → n ≤ first + j) }
{
    if n <= first {
        return 0;
    }
    let left = n - first;
    if left < BITS {
        return left;
    }
    BITS
}

// For each bit those of the 64 nodes from `first` on that have it and are not closed, where there are n nodes. The sets are empty before.
pub fn gather(
    masks: &[u64; Chart::NODES],
    closed: &[u8; Chart::NODES],
    first: usize,
    n: usize,
    sets: &mut [u64; BITS],
)
    requires { (first + 64 ≤ 192) × Past n masks.now × (sets.old ≡ replicate 64 0) }
    ensures { Gathered closed.now masks.now first sets.new }
{
    let end = count_from(first, n);
    let mut run = Run { mask: 0, set: 0 };
    for j in 0..end {
        run = take(sets, run, closed[first + j], masks[first + j], j);
    }
    add(sets, run.mask, run.set);
}
