// Distances as a call on slices (02, Note 13): how far behind the nearest barrier each node lies. The marking tells the fewest edges from a barrier.
#![tactic(auto)]

ghost use Rattle.std.specs.Prelude.{◌≡◌, cond, [], ◌++◌, ◌≤◌, ◌<◌, eqb, length, drop};
ghost use Rattle.chart.specs.Checked.{reading};
ghost use Rattle.theory_paths.specs.Phases.{forward};
ghost use Rattle.mark_tables.specs.Tables.{Accepted, Levels};
ghost use Rattle.output.specs.Output.{output_rows, written_by, left_by};
ghost use Rattle.theory_calls.specs.Distances.{distances_result, distances_written, distances_left};
ghost use Rattle.call_distances.specs.OfLevels.{OfLevels};

use chart::format::{Chart, Refusal};
use mark_regions::entrance::enter;
use mark_tables::closed::load_closed;
use output::room_for;
use theory_calls::Distance;

// The byte of a node. Both numbers are handed over, so that nothing is read in a branch and several nodes are taken at once.
fn distance_byte(level: u8, closed: u8) -> u8
    ensures { result ≡ cond (eqb closed 0) level 255 }
{
    if closed == 0 {
        level
    } else {
        Distance::AT_BARRIER
    }
}

// The first n bytes of out become the distances of the first n nodes.
fn fill_distances(
    out: &mut [u8],
    n: usize,
    closed: &[u8; Chart::NODES],
    levels: &[u8; Chart::NODES],
)
    requires { (n ≤ 192) × (n ≤ length out.old) }
    ensures { OfLevels n closed.now levels.now (λ R. out.new ≡ distances_result R ++ drop (length (distances_result R)) out.old) }
{
    for x in 0..n {
        out[x] = distance_byte(levels[x], closed[x]);
    }
}

// Row 11 and the bytes, of a chart whose nodes are marked.
fn write_distances(
    s: &[u8],
    chart: Chart,
    levels: &[u8; Chart::NODES],
    out: &mut [u8],
) -> Result<usize, Refusal>
    requires { Accepted s.now chart × Levels forward (reading s.now chart) levels.now }
    ensures result_value { let size = length (distances_result (reading s.now chart)) in
        result ≡ written_by (output_rows [] (length out.old) size []) size }
    ensures out_after { let result = distances_result (reading s.now chart) in
        out.new ≡ left_by (output_rows [] (length out.old) (length result) []) result out.old }
{
    let size = room_for(chart.nodes, out.len())?;
    let mut closed = [0u8; Chart::NODES];
    load_closed(s, chart, &mut closed);
    fill_distances(out, chart.nodes, &closed, levels);
    Ok(size)
}

// The first of rows 1 to 10, 23 and 11 that applies, or the bytes written.
pub fn distances(s: &[u8], region: usize, out: &mut [u8]) -> Result<usize, Refusal>
    ensures value { result ≡ distances_written s.now region out.old }
    ensures out_after { out.new ≡ distances_left s.now region out.old }
{
    let mut starts = [0u64; Chart::NODES];
    let mut ends = [0u64; Chart::NODES];
    let mut levels = [0u8; Chart::NODES];
    let chart = enter(s, region, &mut starts, &mut ends, &mut levels)?.chart;
    write_distances(s, chart, &levels, out)
}
