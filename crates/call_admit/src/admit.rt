// Rows 1 to 10 of the refusals over any bytes, and the counts of a chart that none of them refuses.
ghost use Rattle.std.specs.Prelude.{◌≡◌};
ghost use Rattle.theory_calls.specs.Admission.{admitted};

use crate::count::count;
use chart::format::{Chart, Refusal};
use mark_regions::entrance::enter;
use mark_regions::outermost::Marked;
use theory_calls::Counts;

// The first of rows 1 to 10 that applies, or the counts of the chart.
pub fn admit(s: &[u8]) -> Result<Counts, Refusal>
    ensures { result ≡ admitted s.now }
{
    let mut starts = [0u64; Chart::NODES];
    let mut ends = [0u64; Chart::NODES];
    let mut levels = [0u8; Chart::NODES];
    let Marked { chart, barriers } = enter(
        s,
        Chart::OUTERMOST,
        &mut starts,
        &mut ends,
        &mut levels,
    )?;
    let nodes = chart.nodes;
    let phases = count(&starts, &ends, nodes, barriers);
    Ok(Counts {
        nodes,
        barriers,
        phases,
    })
}
