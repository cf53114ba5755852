// The phase count: for each start the union of the ends of the nodes that have it, in one pass over the nodes, and how many these are.
ghost use Rattle.std.specs.Prelude.{◌≡◌, cond, ◌≤◌, ◌<◌, eqb, length};
ghost use Rattle.chart.specs.Region.{Region};
ghost use Rattle.theory_paths.specs.Phases.{forward, backward, barriers, phase_count};
ghost use Rattle.mark_tables.specs.Tables.{Masks};
ghost use Rattle.masks.specs.Unions.{Added};
ghost use Rattle.call_admit.specs.Unions.{United};

use chart::format::Chart;
use masks::bits::ones;
use masks::unions::add;

// The starts and the ends of a node.
#[derive(Clone, Copy, PartialEq, Eq)]
struct Node {
    starts: u64,
    ends: u64,
}

// For each start the ends of the nodes that have it.
fn unite(
    starts: &[u64; Chart::NODES],
    ends: &[u64; Chart::NODES],
    n: usize,
    unions: &mut [u64; Chart::BARRIERS],
)
    requires { n ≤ 192 }
    ensures { (R : Region) → n ≡ R.nodes → Masks forward R starts.now → Masks backward R ends.now → United R R.nodes unions.new }
{
    *unions = [0u64; Chart::BARRIERS];
    // What was added last: adding it again, or to no starts, changes nothing.
    let mut last = Node { starts: 0, ends: 0 };
    for x in 0..n {
        let node = Node {
            starts: starts[x],
            ends: ends[x],
        };
        if node.starts != 0 && node != last {
            add(unions, node.starts, node.ends);
            last = node;
        }
    }
}

// How many phases there are.
pub fn count(
    starts: &[u64; Chart::NODES],
    ends: &[u64; Chart::NODES],
    n: usize,
    total: usize,
) -> usize
    requires { (n ≤ 192) × (total ≤ 64) }
    ensures { (R : Region) → n ≡ R.nodes → total ≡ length (barriers R) → Masks forward R starts.now → Masks backward R ends.now → result ≡ phase_count R }
{
    let mut unions = [0u64; Chart::BARRIERS];
    unite(starts, ends, n, &mut unions);
    let mut sum = 0;
    for union in &unions[..total] {
        sum += ones(*union);
    }
    sum
}
