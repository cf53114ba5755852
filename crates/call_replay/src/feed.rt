// One entry of a trace.
ghost use Rattle.std.specs.Prelude.{◌≡◌, true, false, List, ℕ, ◌+◌, ◌*◌, ◌≤◌, ◌<◌, eqb, length, get_or};
ghost use Rattle.lists.specs.Range.{every};
ghost use Rattle.chart.specs.Region.{Region};
ghost use Rattle.theory_team.specs.State.{State, released};
ghost use Rattle.theory_traces.specs.Decide.{allowed};
ghost use Rattle.theory_traces.specs.Replay.{gathered as is_gathered, at_finish};
ghost use Rattle.answer_steps.specs.Teams.{count_at};
ghost use Rattle.answer_steps.specs.Tables.{Tabled, Shows};
ghost use Rattle.call_replay.specs.declared.pairs_met.Rows.{Rows};
ghost use Rattle.call_replay.specs.Release.{SetBack, AllBack};
ghost use Rattle.call_replay.specs.Playing.{Ready, OfPlays, Feeds, FeedsIf};

use crate::pairs_met::{Rows, mark_state, mark_thread};
use answer_steps::decide::decide;
use answer_steps::effects::apply;
use answer_steps::tables::{
    BARRIER, FINISH, NODES, ROLES, RegionTable, TeamTable, at, leads, node_of,
};
use masks::bits::lowest;
use theory_traces::{Effect, Thread};

// Every thread is at x.
fn all_at(team: &TeamTable, m: usize, x: usize) -> bool
    requires { m ≤ 8 }
    ensures { (σ : State) → Shows σ team.now → result ≡ every m (λ k. eqb (σ.node k) x) }
{
    for k in 0..m {
        if node_of(team, k) != x {
            return false;
        }
    }
    true
}

// All threads are at finish.
pub fn at_finish(table: &RegionTable, team: &TeamTable, m: usize) -> bool
    requires { (R : Region) × Tabled R table.now × (m ≤ 8) }
    ensures { (R : Region) (σ : State) → Tabled R table.now → Shows σ team.now → result ≡ at_finish R m σ }
{
    all_at(team, m, at(table, FINISH))
}

// All threads are at one barrier, not finish.
fn gathered(table: &RegionTable, team: &TeamTable, m: usize) -> bool
    requires { (R : Region) × (σ : State) × Tabled R table.now × Shows σ team.now × (m ≤ 8) }
    ensures { (R : Region) (σ : State) → Tabled R table.now → Shows σ team.now → result ≡ is_gathered R m σ }
{
    let x = node_of(team, 0);
    if at(table, ROLES + x) != BARRIER {
        return false;
    }
    if x == at(table, FINISH) {
        return false;
    }
    all_at(team, m, x)
}

// The next entry belongs to a release: one has begun, or all threads are at one barrier, not finish.
fn is_due(table: &RegionTable, team: &TeamTable, m: usize) -> bool
    requires { (R : Region) × (σ : State) × Tabled R table.now × Shows σ team.now × (m ≤ 8) }
    ensures { (rows : Rows) (out : List ℕ) → OfPlays m rows table.now team.now out (λ R P. result ≡ is_gathered R m P.state) }
{
    team.pending != 0 || gathered(table, team, m)
}

// Of construct c no thread has a count any more, and none has taken a section.
fn set_back(team: &mut TeamTable, c: usize)
    requires { (length team.old.threads ≡ 8) × (c < 48) }
    ensures { SetBack 8 c team.old team.new }
{
    for thread in &mut team.threads {
        thread.counts[c] = 0;
        thread.taken[c] = 0;
    }
}

// Every count is 0 again and nothing is taken: only what is not 0 is set back.
fn set_all_back(team: &mut TeamTable)
    requires { (σ : State) × Shows σ team.old }
    ensures { AllBack team.old team.new }
{
    let mut rest = team.left;
    while rest != 0 {
        set_back(team, lowest(rest));
        rest &= rest - 1;
    }
    team.left = 0;
}

// The release: each thread goes to the node chosen for it, every count is 0 again and nothing is taken.
fn release(team: &mut TeamTable, m: usize)
    requires shows { (σ : State) × Shows σ team.old × (m ≤ 8) }
    requires by_index { (t : ℕ) → t < m → get_or team.old.chosen t 0 < 256 }
    ensures shows_2 { (σ : State) → Shows σ team.old → Shows (released m σ (λ t. get_or team.old.chosen t 0)) team.new }
    ensures team_after { team.new.pending ≡ 0 }
{
    set_all_back(team);
    for t in 0..m {
        team.threads[t].node = team.chosen[t];
    }
    team.pending = 0;
}

// An entry of a release: the next thread's, along an edge. With the last the release takes effect.
fn choose(
    table: &RegionTable,
    team: &mut TeamTable,
    m: usize,
    t: usize,
    v: usize,
    rows: Rows,
    out: &mut [u8],
) -> bool
    requires { Ready table.now team.old m v rows out.old }
    ensures { FeedsIf true m rows t v result table.now team.old out.old team.new out.new }
{
    if t != team.pending {
        return false;
    }
    if !leads(table, node_of(team, 0), v) {
        return false;
    }
    team.chosen[t] = v as u8;
    if t + 1 == m {
        release(team, m);
        mark_state(team, m, at(table, NODES), rows, out);
        return true;
    }
    team.pending = t + 1;
    true
}

// Whether the rules allow it.
fn is_allowed(effect: Effect) -> bool
    ensures { result ≡ allowed effect }
{
    match effect {
        Effect::None => false,
        Effect::Moves => true,
        Effect::Leaves(_) => true,
        Effect::Takes(_, _) => true,
        Effect::TakesNext(_, _) => true,
    }
}

// An entry of one thread.
fn step(
    table: &RegionTable,
    team: &mut TeamTable,
    m: usize,
    t: usize,
    v: usize,
    rows: Rows,
    out: &mut [u8],
) -> bool
    requires ready { Ready table.now team.old m v rows out.old }
    requires by_index { (t c : ℕ) → t < 8 → c < 48 → count_at team.old t c + 1 < 18446744073709551616 }
    ensures { FeedsIf false m rows t v result table.now team.old out.old team.new out.new }
{
    let effect = decide(table, team, m, t, v);
    if !is_allowed(effect) {
        return false;
    }
    apply(team, t, v, effect);
    team.pending = 0;
    mark_thread(team, m, at(table, NODES), rows, t, out);
    true
}

// The entry of thread t, to v: whether the team rules allow it. A forbidden one changes nothing.
pub fn feed(
    table: &RegionTable,
    team: &mut TeamTable,
    m: usize,
    t: usize,
    v: usize,
    rows: Rows,
    out: &mut [u8],
) -> bool
    requires ready { Ready table.now team.old m v rows out.old }
    requires by_index { (t c : ℕ) → t < 8 → c < 48 → count_at team.old t c + 1 < 18446744073709551616 }
    ensures { Feeds m rows t v result table.now team.old out.old team.new out.new }
{
    if is_due(table, team, m) {
        return choose(table, team, m, t, v, rows, out);
    }
    step(table, team, m, t, v, rows, out)
}
