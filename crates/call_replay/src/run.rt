// The replay of a trace by a team of m (02, Note 11): its rows, then the entries.
ghost use Rattle.std.specs.Prelude.{◌≡◌, ◌++◌, ◌*◌, ◌≤◌, length, drop};
ghost use Rattle.std.proofs.Math.Option.{none};
ghost use Rattle.lists.specs.Tab.{tab};
ghost use Rattle.chart.specs.Checked.{reading};
ghost use Rattle.chart.specs.Refusal.{first_of};
ghost use Rattle.theory_paths.specs.Admission.{region_rows};
ghost use Rattle.mark_tables.specs.Tables.{Accepted};
ghost use Rattle.theory_traces.specs.Replay.{outcome_of, play_of, replayed};
ghost use Rattle.theory_traces.specs.Call.{bad_trace, record_of, met_sheet, replay_answer, sheet_left};
ghost use Rattle.call_replay.specs.Team.{Counts, Records};

use crate::pairs_met::Rows;
use crate::records::{blank, team_of};
use crate::rows::replay_rows;
use answer_steps::tables::TeamTable;
use chart::format::{Chart, Refusal};
use mark_regions::entrance::enter;
use theory_traces::{Replayed, Thread};

// The records of all threads that a team may have, how many of them are the team's (none where the call is refused), and the answer.
#[derive(Clone, Copy)]
pub struct Team {
    pub threads: [Thread; Thread::MOST],
    pub count: usize,
    pub answer: Result<Replayed, Refusal>,
}

// Refused: no record, and the number.
fn refused(refusal: Refusal) -> Team
    ensures { (result.answer ≡ Err refusal) × (result.count ≡ 0) }
{
    Team {
        threads: [blank(); Thread::MOST],
        count: 0,
        answer: Err(refusal),
    }
}

// Row 22.
pub fn bad_trace(trace: &[u8], m: usize) -> bool
    ensures { result ≡ bad_trace trace.now m }
{
    if trace.len() % 2 == 1 {
        return true;
    }
    if m == 0 {
        return true;
    }
    m > Thread::MOST
}

// What no row refuses: all rows of the sheet.
fn replay_chart(s: &[u8], chart: Chart, trace: &[u8], m: usize, out: &mut [u8]) -> Team
    requires { Accepted s.now chart × (1 ≤ m) × (m ≤ 8) × (chart.nodes * chart.nodes ≤ length out.old) }
    ensures fact { let R = reading s.now chart in
        let end = replayed R m trace.now in
        (result.answer ≡ Ok (outcome_of R m end)) × (result.count ≡ m) × (result.threads ≡ tab 8 (record_of (play_of end).state)) }
    ensures out_after { let R = reading s.now chart in
        let sheet = met_sheet R.nodes (play_of (replayed R m trace.now)).met in
        out.new ≡ sheet ++ drop (length sheet) out.old }
{
    let mut team = TeamTable::BLANK;
    let rows = Rows {
        first: 0,
        count: chart.nodes,
    };
    let answer = replay_rows(s, chart, trace, m, rows, &mut team, out);
    team_of(&team, m, Ok(answer))
}

// Rows 22 and 11, of a chart that the rows before them let pass.
fn run_chart(s: &[u8], chart: Chart, trace: &[u8], m: usize, out: &mut [u8]) -> Team
    requires { (first_of (region_rows s.now chart.region) ≡ none) × Accepted s.now chart }
    ensures answer_value { result.answer ≡ replay_answer s.now chart.region trace.now m out.old }
    ensures out_after { out.new ≡ sheet_left s.now chart.region trace.now m out.old }
    ensures counts { Counts s.now chart.region trace.now m out.old result }
    ensures records { Records s.now chart.region trace.now m out.old result }
{
    if bad_trace(trace, m) {
        return refused(Refusal::BadTrace);
    }
    let n = chart.nodes;
    if out.len() < n * n {
        return refused(Refusal::NoRoom);
    }
    replay_chart(s, chart, trace, m, out)
}

pub fn run(s: &[u8], region: usize, trace: &[u8], m: usize, out: &mut [u8]) -> Team
    ensures answer_value { result.answer ≡ replay_answer s.now region trace.now m out.old }
    ensures out_after { out.new ≡ sheet_left s.now region trace.now m out.old }
    ensures counts { Counts s.now region trace.now m out.old result }
    ensures records { Records s.now region trace.now m out.old result }
{
    let mut starts = [0u64; Chart::NODES];
    let mut ends = [0u64; Chart::NODES];
    let mut levels = [0u8; Chart::NODES];
    match enter(s, region, &mut starts, &mut ends, &mut levels) {
        Err(refusal) => refused(refusal),
        Ok(marked) => run_chart(s, marked.chart, trace, m, out),
    }
}
