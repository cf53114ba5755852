// Whether a trace is a witness for two nodes, as a call on slices (definitions: crate `theory_calls`).
#![tactic(auto)]

ghost use Rattle.std.specs.Prelude.{◌≡◌, [], ◌∷◌, ◌≤◌, ◌<◌};
ghost use Rattle.chart.specs.Checked.{reading};
ghost use Rattle.chart.specs.Refusal.{first_of};
ghost use Rattle.chart.specs.declared.format.Refusal.TheVariants.{BadTrace};
ghost use Rattle.mark_tables.specs.Tables.{Accepted};
ghost use Rattle.theory_calls.specs.Pair.{numbers_row};
ghost use Rattle.theory_calls.specs.Witness.{is_witness, answered_by, witnessed as witnessed_by};
ghost use Rattle.theory_traces.specs.Call.{bad_trace};

use answer_pairs::numbers::bad_node;
use answer_steps::tables::TeamTable;
use call_replay::pairs_met::Rows;
use call_replay::rows::replay_rows;
use call_replay::run::bad_trace;
use chart::format::{Chart, Refusal};
use mark_regions::entrance::enter;
use theory_traces::Replayed;

// What no row refuses: whether the run is finished, and b marked in the row of a, which alone is kept.
fn is_witness(s: &[u8], chart: Chart, size: usize, trace: &[u8], a: usize, b: usize) -> bool
    requires { Accepted s.now chart × (1 ≤ size) × (size ≤ 8) × (b < chart.nodes) }
    ensures { result ≡ is_witness (reading s.now chart) size trace.now a b }
{
    let mut team = TeamTable::BLANK;
    let mut row = [0u8; Chart::NODES];
    let rows = Rows { first: a, count: 1 };
    match replay_rows(s, chart, trace, size, rows, &mut team, &mut row) {
        Replayed::Finished => row[b] == Rows::MET,
        Replayed::Unfinished => false,
        Replayed::Forbidden(_) => false,
    }
}

// Rows 13 and 22 and the answer, of a chart that the rows before them let pass.
fn tell(
    s: &[u8],
    chart: Chart,
    size: usize,
    trace: &[u8],
    a: usize,
    b: usize,
) -> Result<bool, Refusal>
    requires { Accepted s.now chart }
    ensures { let R = reading s.now chart in
        result ≡ answered_by (first_of (numbers_row R a b ∷ record { refusal = BadTrace; applies = bad_trace trace.now size } ∷ [])) (is_witness R size trace.now a b) }
{
    if bad_node(s, chart, a) {
        return Err(Refusal::BadNumber);
    }
    if bad_node(s, chart, b) {
        return Err(Refusal::BadNumber);
    }
    if bad_trace(trace, size) {
        return Err(Refusal::BadTrace);
    }
    Ok(is_witness(s, chart, size, trace, a, b))
}

// The first of rows 1 to 10, 23, 13 and 22 that applies, or whether the trace is a finished run of a team of this size by the team rules that has
// two threads at nodes a and b together.
pub fn witnessed(
    s: &[u8],
    region: usize,
    size: usize,
    trace: &[u8],
    a: usize,
    b: usize,
) -> Result<bool, Refusal>
    ensures { result ≡ witnessed_by s.now region size trace.now a b }
{
    let mut starts = [0u64; Chart::NODES];
    let mut ends = [0u64; Chart::NODES];
    let mut levels = [0u8; Chart::NODES];
    let chart = enter(s, region, &mut starts, &mut ends, &mut levels)?.chart;
    tell(s, chart, size, trace, a, b)
}
