// Phases as a call on slices: it writes a result to a lent buffer.
ghost use Rattle.std.specs.Prelude.{◌≡◌, ◌≤◌, length};
ghost use Rattle.chart.specs.Region.{Region};
ghost use Rattle.output.specs.Output.{written_by, left_by};
ghost use Rattle.theory_calls.specs.Phases.{phases_result, phases_written, phases_left};
ghost use Rattle.call_phases.specs.Writing.{OfMasks, phases_rows};

use crate::fill::fill_phases;
use chart::format::{Chart, Refusal};
use mark_regions::entrance::enter;
use output::room_for;

// Row 11 and the bytes of Phases, for n nodes with these masks.
fn write_phases(
    n: usize,
    starts: &[u64; Chart::NODES],
    ends: &[u64; Chart::NODES],
    out: &mut [u8],
) -> Result<usize, Refusal>
    requires { n ≤ 192 }
    ensures value { (R : Region) → R.nodes ≡ n → result ≡ written_by (phases_rows R out.old) (length (phases_result R)) }
    ensures of_masks { OfMasks n starts.now ends.now (λ R. out.new ≡ left_by (phases_rows R out.old) (phases_result R) out.old) }
{
    let size = room_for(output::PHASES_NODE * n, out.len())?;
    fill_phases(out, n, starts, ends);
    Ok(size)
}

// The first of rows 1 to 10, 23 and 11 that applies, or the bytes written.
pub fn phases(s: &[u8], region: usize, out: &mut [u8]) -> Result<usize, Refusal>
    ensures value { result ≡ phases_written s.now region out.old }
    ensures out_after { out.new ≡ phases_left s.now region out.old }
{
    let mut starts = [0u64; Chart::NODES];
    let mut ends = [0u64; Chart::NODES];
    let mut levels = [0u8; Chart::NODES];
    let chart = enter(s, region, &mut starts, &mut ends, &mut levels)?.chart;
    write_phases(chart.nodes, &starts, &ends, out)
}
