// All entries of a trace, one after the other.
ghost use Rattle.std.specs.Prelude.{◌*◌, ◌≤◌, length};
ghost use Rattle.chart.specs.Region.{Region};
ghost use Rattle.theory_traces.specs.Replay.{begun};
ghost use Rattle.answer_steps.specs.Tables.{Tabled};
ghost use Rattle.call_replay.specs.Playing.{Playing, Plays};

use crate::feed::{at_finish, feed};
use crate::pairs_met::Rows;
use answer_steps::tables::{RegionTable, TeamTable};
use theory_traces::Replayed;

// What the replay says; the team and the rows kept of the sheet are left as at the last legal entry.
pub fn play(
    table: &RegionTable,
    team: &mut TeamTable,
    m: usize,
    trace: &[u8],
    rows: Rows,
    out: &mut [u8],
) -> Replayed
    requires { (R : Region) × Tabled R table.now × Playing R m rows (begun R m) team.old out.old × (m ≤ 8) × (rows.count * R.nodes ≤ length out.old) }
    ensures { Plays m rows trace.now result table.now team.old out.old team.new out.new }
{
    for i in 0..trace.len() / 2 {
        let t = usize::from(trace[2 * i]);
        let v = usize::from(trace[2 * i + 1]);
        if !feed(table, team, m, t, v, rows, out) {
            return Replayed::Forbidden(i);
        }
    }
    if at_finish(table, team, m) {
        return Replayed::Finished;
    }
    Replayed::Unfinished
}
