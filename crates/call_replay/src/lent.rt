// The replay over records that a caller lends (02, Note 11). What decides anything is in the replay by value (module `run`): the two functions over
// a slice of records only hand it on and store what it gives.
ghost use Rattle.std.specs.Prelude.{◌≡◌, ◌≤◌, ◌<◌, length, get_or};
ghost use Rattle.theory_traces.specs.Call.{replay_answer, records_left, sheet_left, values_of};
ghost use Rattle.theory_traces.specs.Correct.{ReplayCorrect};
ghost use Rattle.call_replay.specs.Stored.{blank, stored};

use crate::run::{Team, run};
use chart::format::Refusal;
use theory_traces::{Replayed, Thread};

// The record of thread t.
fn record_of(team: Team, t: usize) -> Thread
    requires { t < 8 }
    ensures { result ≡ get_or team.threads t blank }
{
    team.threads[t]
}

fn answer_of(team: Team) -> Result<Replayed, Refusal>
    ensures { result ≡ team.answer }
{
    team.answer
}

// The records of the first n threads, stored.
fn store(threads: &mut [Thread], team: Team, n: usize)
    requires { (n ≤ 8) × (n ≤ length threads.old) }
    ensures { threads.new ≡ stored team.threads n threads.old }
{
    for t in 0..n {
        let record = record_of(team, t);
        threads[t] = record;
    }
}

// The team is one thread for each record lent. Refused, all that is lent is left as found; else each record is left as its thread is at the last
// legal entry, and the sheet has the pairs met up to there.
pub fn replay(
    chart: &[u8],
    region: usize,
    trace: &[u8],
    threads: &mut [Thread],
    out: &mut [u8],
) -> Result<Replayed, Refusal>
    ensures value { result ≡ replay_answer chart.now region trace.now (length threads.old) out.old }
    ensures threads_after { threads.new ≡ records_left chart.now region trace.now threads.old out.old }
    ensures out_after { out.new ≡ sheet_left chart.now region trace.now (length threads.old) out.old }
    ensures replay_correct { ReplayCorrect chart.now region trace.now threads.old out.old (values_of result) threads.new out.new }
{
    let m = threads.len();
    let team = run(chart, region, trace, m, out);
    let n = team.count;
    store(threads, team, n);
    answer_of(team)
}
