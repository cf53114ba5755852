// The records of the threads, read off the table of the team.
ghost use Rattle.std.specs.Prelude.{◌≡◌};
ghost use Rattle.lists.specs.Tab.{tab};
ghost use Rattle.theory_team.specs.State.{State};
ghost use Rattle.theory_traces.specs.Call.{record_of};
ghost use Rattle.answer_steps.specs.Tables.{Shows};

use crate::run::Team;
use answer_steps::tables::TeamTable;
use chart::format::{Chart, Refusal};
use theory_traces::{Replayed, Thread};

// A record that nothing is known of.
pub fn blank() -> Thread {
    Thread {
        node: 0,
        counts: [0; Chart::CONSTRUCTS],
        taken: [0; Chart::CONSTRUCTS],
    }
}

// All records, with the answer.
pub fn team_of(team: &TeamTable, count: usize, answer: Result<Replayed, Refusal>) -> Team
    ensures { ((σ : State) → Shows σ team.now → result.threads ≡ tab 8 (record_of σ)) × (result.count ≡ count) × (result.answer ≡ answer) }
{
    Team {
        threads: team.threads,
        count,
        answer,
    }
}
