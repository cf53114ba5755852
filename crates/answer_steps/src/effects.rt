// What a step does to the table of a team.
ghost use Rattle.std.specs.Prelude.{ℕ, ◌+◌, ◌<◌};
ghost use Rattle.theory_team.specs.State.{State, moved, left, took};
ghost use Rattle.theory_traces.specs.Decide.{apply};
ghost use Rattle.answer_steps.specs.Teams.{count_at};
ghost use Rattle.answer_steps.specs.Tables.{Shows, Numbered};

use crate::tables::TeamTable;
use masks::bits::bit;
use theory_traces::Effect;

// Thread t has gone to v.
fn move_to(team: &mut TeamTable, t: usize, v: usize)
    requires { (t < 8) × (v < 256) }
    ensures { (σ : State) → Shows σ team.old → Shows (moved σ t v) team.new }
{
    team.threads[t].node = v as u8;
}

// Thread t has left the begin of c and gone to v.
fn leave(team: &mut TeamTable, t: usize, c: usize, v: usize)
    requires { (t < 8) × (c < 48) × (v < 256) × (count_at team.old t c + 1 < 18446744073709551616) }
    ensures { (σ : State) → Shows σ team.old → Shows (left σ t c v) team.new }
{
    team.left |= bit(c);
    let thread = &mut team.threads[t];
    thread.node = v as u8;
    thread.counts[c] += 1;
    thread.taken[c] = 0;
}

// Thread t has taken the section x of c.
fn take_section(team: &mut TeamTable, t: usize, c: usize, x: usize)
    requires { (t < 8) × (c < 48) × (x < 48) }
    ensures { (σ : State) → Shows σ team.old → Shows (took σ t c x) team.new }
{
    team.left |= bit(c);
    team.threads[t].taken[c] |= bit(x);
}

// What the effect of a step to v does.
pub fn apply(team: &mut TeamTable, t: usize, v: usize, effect: Effect)
    requires { (σ : State) × Shows σ team.old × (t < 8) × (v < 256) × Numbered effect × ((c : ℕ) → c < 48 → count_at team.old t c + 1 < 18446744073709551616) }
    ensures { (σ : State) → Shows σ team.old → Shows (apply σ t v effect) team.new }
{
    match effect {
        Effect::None => {}
        Effect::Moves => move_to(team, t, v),
        Effect::Leaves(c) => leave(team, t, c, v),
        Effect::Takes(c, x) => {
            leave(team, t, c, v);
            take_section(team, t, c, x);
        }
        Effect::TakesNext(c, x) => {
            move_to(team, t, v);
            take_section(team, t, c, x);
        }
    }
}
