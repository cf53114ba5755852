// The team rules as a decision: what a step of a thread to a node does to the state, or that the rules forbid it. Each function is as the
// definition of like name has it (crate `theory_traces`, specs/Decide.antt).
ghost use Rattle.std.specs.Prelude.{◌≡◌, ◌&&◌, cond, ℕ, ◌+◌, ◌≤◌, ◌<◌, eqb, get_or};
ghost use Rattle.chart.specs.Region.{Region, loop};
ghost use Rattle.theory_team.specs.State.{State};
ghost use Rattle.theory_traces.specs.Tests.{is_kind, may_enter, may_pass, may_leave};
ghost use Rattle.theory_traces.specs.Decide.{taking, from_begin, from_end, decide};
ghost use Rattle.theory_traces.specs.declared.Effect.{Effect as Effect-as-Effect};
ghost use Rattle.theory_traces.specs.declared.Effect.TheVariants.{None};
ghost use Rattle.answer_steps.specs.Tables.{Tabled, Sound, OfStates, TakesBy, Numbered};

use crate::tables::{
    BARRIER, BEGINS, CLOSES, ENDS, KINDS, NUMBERS, OPENS, PARENTS, ROLES, RegionTable, TeamTable,
    at, count_of, leads, node_of,
};
use crate::tests::{is_untaken, may_enter, may_leave, may_pass};
use chart::format::Construct;
use theory_traces::Effect;

// A step from the begin or the end of c to v takes the section that v begins.
fn takes(table: &RegionTable, team: &TeamTable, m: usize, c: usize, instance: u64, v: usize) -> bool
    requires { Sound table.now team.now × (m ≤ 8) × (c < get_or table.now 2033 0) × (v < 256) }
    ensures { OfStates table.now team.now (λ R σ. TakesBy R m σ c instance v (get_or table.now (1280 + v) 0) result) }
{
    if at(table, ROLES + v) != OPENS {
        return false;
    }
    let x = at(table, NUMBERS + v);
    if at(table, KINDS + c) != usize::from(Construct::SECTIONS) {
        return false;
    }
    if at(table, KINDS + x) != usize::from(Construct::SECTION) {
        return false;
    }
    if at(table, PARENTS + x) != c {
        return false;
    }
    is_untaken(team, m, c, instance, x)
}

// From the begin of c, or from its end, an edge leads to v, and may be taken.
fn goes(
    table: &RegionTable,
    team: &TeamTable,
    m: usize,
    t: usize,
    v: usize,
    c: usize,
    begin: bool,
) -> bool
    requires { Sound table.now team.now × (m ≤ 8) × (t < 8) × (v < 256) × (c < get_or table.now 2033 0) }
    ensures { OfStates table.now team.now (λ R σ. result ≡ (R.edge (σ.node t) v && cond begin (may_enter R m σ t c (R.kind c)) (may_leave R m σ t c))) }
{
    if !leads(table, node_of(team, t), v) {
        return false;
    }
    if begin {
        return may_enter(table, team, m, t, c);
    }
    may_leave(table, team, m, t, c)
}

// v is the end of c, and the begin may be left for it.
fn passes(table: &RegionTable, team: &TeamTable, m: usize, t: usize, v: usize, c: usize) -> bool
    requires { Sound table.now team.now × (m ≤ 8) × (t < 8) × (v < 256) × (c < get_or table.now 2033 0) }
    ensures { OfStates table.now team.now (λ R σ. result ≡ (eqb v (R.end c) && may_pass R m σ t c (R.kind c))) }
{
    if v != at(table, ENDS + c) {
        return false;
    }
    may_pass(table, team, m, t, c)
}

// c is a do, and an edge leads from its begin to v.
fn again(table: &RegionTable, v: usize, c: usize) -> bool
    requires { (R : Region) × Tabled R table.now × (v < 256) × (c < get_or table.now 2033 0) }
    ensures { (R : Region) → Tabled R table.now → result ≡ (is_kind (R.kind c) loop && R.edge (R.begin c) v) }
{
    if at(table, KINDS + c) != usize::from(Construct::DO) {
        return false;
    }
    leads(table, at(table, BEGINS + c), v)
}

fn from_begin(
    table: &RegionTable,
    team: &TeamTable,
    m: usize,
    t: usize,
    v: usize,
    c: usize,
) -> Effect
    requires { Sound table.now team.now × (m ≤ 8) × (t < 8) × (v < 256) × (c < get_or table.now 2033 0) }
    ensures of_states { OfStates table.now team.now (λ R σ. result ≡ from_begin R m σ t v c) }
    ensures numbered { Numbered result }
{
    if goes(table, team, m, t, v, c, true) {
        return Effect::Leaves(c);
    }
    if passes(table, team, m, t, v, c) {
        return Effect::Leaves(c);
    }
    if takes(table, team, m, c, count_of(team, t, c) + 1, v) {
        return Effect::Takes(c, at(table, NUMBERS + v));
    }
    Effect::None
}

fn from_end(table: &RegionTable, team: &TeamTable, m: usize, t: usize, v: usize, c: usize) -> Effect
    requires { Sound table.now team.now × (m ≤ 8) × (t < 8) × (v < 256) × (c < get_or table.now 2033 0) }
    ensures of_states { OfStates table.now team.now (λ R σ. result ≡ from_end R m σ t v c) }
    ensures numbered { Numbered result }
{
    if goes(table, team, m, t, v, c, false) {
        return Effect::Moves;
    }
    if again(table, v, c) {
        return Effect::Moves;
    }
    if takes(table, team, m, c, count_of(team, t, c), v) {
        return Effect::TakesNext(c, at(table, NUMBERS + v));
    }
    Effect::None
}

// What a step of thread t to v does. No thread leaves a barrier by itself.
pub fn decide(table: &RegionTable, team: &TeamTable, m: usize, t: usize, v: usize) -> Effect
    requires { Sound table.now team.now × (m ≤ 8) × (v < 256) }
    ensures of_states { OfStates table.now team.now (λ R σ. result ≡ decide R m σ t v) }
    ensures numbered { Numbered result }
{
    if m <= t {
        return Effect::None;
    }
    let x = node_of(team, t);
    let role = at(table, ROLES + x);
    if role == OPENS {
        return from_begin(table, team, m, t, v, at(table, NUMBERS + x));
    }
    if role == CLOSES {
        return from_end(table, team, m, t, v, at(table, NUMBERS + x));
    }
    if role == BARRIER {
        return Effect::None;
    }
    if leads(table, x, v) {
        return Effect::Moves;
    }
    Effect::None
}
