// The team rules as tests, each as the definition of like name has it (crate `theory_traces`, specs/Tests.antt).
ghost use Rattle.std.specs.Prelude.{◌≡◌, ◌&&◌, ◌||◌, not, ◌≤◌, ◌<◌, eqb, leb, length, get_or};
ghost use Rattle.chart.specs.Region.{Region, ordered};
ghost use Rattle.theory_team.specs.State.{State};
ghost use Rattle.theory_answers.specs.Answer.{in_ordered_of, is_in};
ghost use Rattle.theory_traces.specs.Tests.{is_first, none_ordered, is_untaken, is_section_of, all_taken, may_enter, may_pass, may_leave};
ghost use Rattle.answer_steps.specs.Tables.{Tabled, Shows, Sound, OfStates, not_beside, untaken_by, TakenIn};

use crate::tables::{
    INSIDES, KINDS, ORDEREDS, PARENTS, RegionTable, SECTIONS, THREADS, TeamTable, at, count_of,
    node_of, taken_of,
};
use chart::format::Construct;
use masks::bits::{common, has};

// No thread has left the begin of c as often as t is about to.
fn is_first(team: &TeamTable, m: usize, t: usize, c: usize) -> bool
    requires { (m ≤ 8) × (t < 8) × (c < 48) }
    ensures { (σ : State) → Shows σ team.now → result ≡ is_first m σ t c }
{
    let own = count_of(team, t, c);
    for k in 0..m {
        if own < count_of(team, k, c) {
            return false;
        }
    }
    true
}

// Node x is inside an ordered of the do d.
fn in_ordered(table: &RegionTable, x: usize, d: usize) -> bool
    requires { (R : Region) × Tabled R table.now × (x < 256) × (d < 48) }
    ensures { (R : Region) → Tabled R table.now → result ≡ in_ordered_of R x d }
{
    common(table[INSIDES + x], table[ORDEREDS + d])
}

// Thread k is t, or not inside an ordered of the do d, or in another instance of d.
fn not_beside(table: &RegionTable, team: &TeamTable, t: usize, d: usize, k: usize) -> bool
    requires { Sound table.now team.now × (t < 8) × (d < 48) × (k < 8) }
    ensures { OfStates table.now team.now (λ R σ. result ≡ not_beside R σ t d k) }
{
    if k == t {
        return true;
    }
    if !in_ordered(table, node_of(team, k), d) {
        return true;
    }
    count_of(team, k, d) != count_of(team, t, d)
}

// No thread but t is inside an ordered of the do d in the same instance of d.
fn none_ordered(table: &RegionTable, team: &TeamTable, m: usize, t: usize, d: usize) -> bool
    requires { Sound table.now team.now × (m ≤ 8) × (t < 8) × (d < 48) }
    ensures { OfStates table.now team.now (λ R σ. result ≡ none_ordered R m σ t d) }
{
    for k in 0..m {
        if !not_beside(table, team, t, d, k) {
            return false;
        }
    }
    true
}

// Thread t is not past the given instance of c, and has not taken the section x there.
fn untaken_by(team: &TeamTable, c: usize, instance: u64, x: usize, t: usize) -> bool
    requires { (c < 48) × (x < 48) × (t < 8) }
    ensures { (σ : State) → Shows σ team.now → result ≡ untaken_by σ c instance x t }
{
    let own = count_of(team, t, c);
    if instance < own {
        return false;
    }
    if own != instance {
        return true;
    }
    !has(taken_of(team, t, c), x)
}

// No thread is past that instance of c, and none has taken the section x there.
pub fn is_untaken(team: &TeamTable, m: usize, c: usize, instance: u64, x: usize) -> bool
    requires { (m ≤ 8) × (c < 48) × (x < 48) }
    ensures { (σ : State) → Shows σ team.now → result ≡ is_untaken m σ c instance x }
{
    for t in 0..m {
        if !untaken_by(team, c, instance, x, t) {
            return false;
        }
    }
    true
}

// Of the sections of c, those that thread t has taken in that instance, or in one before: all, if it is past that instance.
fn taken_by(table: &RegionTable, team: &TeamTable, c: usize, instance: u64, t: usize) -> u64
    requires { Sound table.now team.now × (c < 48) × (t < 8) }
    ensures { OfStates table.now team.now (λ R σ. TakenIn R c result (λ x. untaken_by σ c instance x t)) }
{
    let own = count_of(team, t, c);
    if instance < own {
        return table[SECTIONS + c];
    }
    if own != instance {
        return 0;
    }
    taken_of(team, t, c)
}

// All sections of c are taken in that instance.
fn all_taken(table: &RegionTable, team: &TeamTable, m: usize, c: usize, instance: u64) -> bool
    requires { Sound table.now team.now × (m ≤ 8) × (c < 48) }
    ensures { OfStates table.now team.now (λ R σ. result ≡ all_taken R m σ c instance) }
{
    let mut taken = 0;
    for t in 0..m {
        taken = taken | taken_by(table, team, c, instance, t);
    }
    let sections = table[SECTIONS + c];
    (taken & sections) == sections
}

// Thread t, at the begin of c, may take an edge.
pub fn may_enter(table: &RegionTable, team: &TeamTable, m: usize, t: usize, c: usize) -> bool
    requires { Sound table.now team.now × (m ≤ 8) × (t < 8) × (c < get_or table.now 2033 0) }
    ensures { OfStates table.now team.now (λ R σ. result ≡ may_enter R m σ t c (R.kind c)) }
{
    let kind = at(table, KINDS + c);
    if kind == usize::from(Construct::SINGLE) {
        return is_first(team, m, t, c);
    }
    if kind == usize::from(Construct::MASTER) {
        return t == at(table, THREADS + c);
    }
    if kind == usize::from(Construct::ORDERED) {
        return none_ordered(table, team, m, t, at(table, PARENTS + c));
    }
    if kind == usize::from(Construct::SECTIONS) {
        return false;
    }
    kind != usize::from(Construct::PARALLEL)
}

// It may go straight to the end of c. A single or a master is passed by whoever may not enter it.
pub fn may_pass(table: &RegionTable, team: &TeamTable, m: usize, t: usize, c: usize) -> bool
    requires { Sound table.now team.now × (m ≤ 8) × (t < 8) × (c < get_or table.now 2033 0) }
    ensures { OfStates table.now team.now (λ R σ. result ≡ may_pass R m σ t c (R.kind c)) }
{
    let kind = at(table, KINDS + c);
    if kind == usize::from(Construct::SINGLE) {
        return !may_enter(table, team, m, t, c);
    }
    if kind == usize::from(Construct::MASTER) {
        return !may_enter(table, team, m, t, c);
    }
    if kind == usize::from(Construct::SECTIONS) {
        return all_taken(table, team, m, c, count_of(team, t, c) + 1);
    }
    kind == usize::from(Construct::DO)
}

// Thread t, at the end of c, may take an edge.
pub fn may_leave(table: &RegionTable, team: &TeamTable, m: usize, t: usize, c: usize) -> bool
    requires { Sound table.now team.now × (m ≤ 8) × (t < 8) × (c < get_or table.now 2033 0) }
    ensures { OfStates table.now team.now (λ R σ. result ≡ may_leave R m σ t c) }
{
    if at(table, KINDS + c) != usize::from(Construct::SECTIONS) {
        return true;
    }
    all_taken(table, team, m, c, count_of(team, t, c))
}
