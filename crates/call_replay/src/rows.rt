// The replay of a trace that no row refuses, with the rows of the sheet that are asked for.
ghost use Rattle.std.specs.Prelude.{◌≡◌, ◌*◌, ◌≤◌, length};
ghost use Rattle.chart.specs.Checked.{reading};
ghost use Rattle.mark_tables.specs.Tables.{Accepted};
ghost use Rattle.theory_traces.specs.Replay.{outcome_of, play_of, replayed};
ghost use Rattle.call_replay.specs.PairsMet.{Kept};
ghost use Rattle.call_replay.specs.Playing.{Playing};

use crate::pairs_met::{Rows, mark_state};
use crate::play::play;
use crate::start::{clear, set_team};
use answer_steps::fill::fill_table;
use answer_steps::tables::{REGION, TeamTable};
use chart::format::Chart;
use theory_traces::Replayed;

// What the replay says; the team and the rows are left as at the last legal entry.
pub fn replay_rows(
    s: &[u8],
    chart: Chart,
    trace: &[u8],
    m: usize,
    rows: Rows,
    team: &mut TeamTable,
    out: &mut [u8],
) -> Replayed
    requires { Accepted s.now chart × (1 ≤ m) × (m ≤ 8) × (rows.count * chart.nodes ≤ length out.old) }
    ensures result_value { let R = reading s.now chart in result ≡ outcome_of R m (replayed R m trace.now) }
    ensures fact { let R = reading s.now chart in Playing R m rows (play_of (replayed R m trace.now)) team.new out.new }
    ensures fact_2 { let R = reading s.now chart in Kept (rows.count * R.nodes) out.old out.new }
{
    let mut table = [0u64; REGION];
    fill_table(s, chart, &mut table);
    set_team(&table, team);
    let n = chart.nodes;
    clear(out, rows.count * n);
    mark_state(team, m, n, rows, out);
    play(&table, team, m, trace, rows, out)
}
