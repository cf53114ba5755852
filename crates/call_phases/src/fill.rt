// The bytes of Phases, written to a lent buffer.
ghost use Rattle.std.specs.Prelude.{◌≡◌, ◌*◌, ◌≤◌, ◌++◌, length, drop};
ghost use Rattle.theory_calls.specs.Phases.{phases_result};
ghost use Rattle.call_phases.specs.Writing.{OfMasks};

use crate::bytes::put_mask;
use chart::format::Chart;

// The first 16 * n bytes of out become the starts and ends of the first n nodes.
pub fn fill_phases(
    out: &mut [u8],
    n: usize,
    starts: &[u64; Chart::NODES],
    ends: &[u64; Chart::NODES],
)
    requires { (n ≤ 192) × (16 * n ≤ length out.old) }
    ensures { OfMasks n starts.now ends.now (λ R. out.new ≡ phases_result R ++ drop (length (phases_result R)) out.old) }
{
    for x in 0..n {
        put_mask(out, output::PHASES_NODE * x, starts[x]);
        put_mask(out, output::PHASES_NODE * x + output::MASK, ends[x]);
    }
}
