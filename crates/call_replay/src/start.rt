// Before the first entry: every thread at start, and no pair met.
ghost use Rattle.std.specs.Prelude.{◌≡◌, ◌≤◌, length, get_or};
ghost use Rattle.chart.specs.Region.{Region};
ghost use Rattle.theory_team.specs.State.{initial};
ghost use Rattle.answer_steps.specs.Tables.{Tabled, Shows};
ghost use Rattle.call_replay.specs.PairsMet.{Cleared};

use crate::pairs_met::Rows;
use answer_steps::tables::{RegionTable, START, TeamTable};
use chart::format::Chart;
use theory_traces::Thread;

// The team at start.
pub fn set_team(table: &RegionTable, team: &mut TeamTable)
    requires { (R : Region) × Tabled R table.now }
    ensures shows { (R : Region) → Tabled R table.now → Shows (initial R) team.new }
    ensures team_after { team.new.pending ≡ 0 }
{
    let thread = Thread {
        node: table[START] as u8,
        counts: [0; Chart::CONSTRUCTS],
        taken: [0; Chart::CONSTRUCTS],
    };
    *team = TeamTable {
        threads: [thread; Thread::MOST],
        chosen: [0; Thread::MOST],
        pending: 0,
        left: 0,
    };
}

// The first bytes: no pair met.
pub fn clear(out: &mut [u8], size: usize)
    requires { size ≤ length out.old }
    ensures { Cleared size out.old out.new }
{
    out[..size].fill(Rows::NOT_MET);
}
