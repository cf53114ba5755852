// The answer for two nodes, by their masks.
ghost use Rattle.std.specs.Prelude.{◌≡◌, ◌<◌};
ghost use Rattle.chart.specs.Region.{Region};
ghost use Rattle.theory_answers.specs.Answer.{answer_for};
ghost use Rattle.theory_answers.specs.declared.Size.{Size};
ghost use Rattle.answer_constructs.specs.Marks.{Sized, Marks};
ghost use Rattle.answer_pairs.specs.Rules.{profile_at, ruled_by, answer_by};

use answer_constructs::kinds::{RULES, Sets};
use answer_constructs::mask_table::MaskTable;
use masks::bits::common;
use theory_answers::Answer;

// What the rules read of one node: its masks. Two nodes with the same profile have the same answers.
#[derive(Clone, Copy, PartialEq)]
pub struct Profile {
    pub starts: u64,
    pub ends: u64,
    pub held: u64,
}

pub fn profile_of(x: usize, marks: &MaskTable) -> Profile
    requires { x < 192 }
    ensures { result ≡ profile_at marks.now x }
{
    Profile {
        starts: marks.starts[x],
        ends: marks.ends[x],
        held: marks.held[x],
    }
}

// The rules for all teams in their order; from rule 2 on, each asks for a construct of its kind that both hold.
fn ruled_by(sets: Sets, x: Profile, y: Profile) -> u8
    ensures { result ≡ ruled_by sets.kinds x y }
{
    if !common(x.starts, y.starts) || !common(x.ends, y.ends) {
        return Answer::NO_COMMON_PHASE;
    }
    let both = x.held & y.held;
    for k in 0..RULES {
        if common(both, sets.kinds[k]) {
            return Answer::MASTER + k as u8;
        }
    }
    Answer::CONCURRENT
}

// Ahead of them, of a known size: the team has one thread, or one of the nodes is inside a master for a thread that it lacks. Where it lacks
// none, as where no size is known, what the nodes hold is not read for that.
pub fn answer_by(sets: Sets, x: Profile, y: Profile) -> u8
    ensures { result ≡ answer_by sets x y }
{
    if sets.alone {
        Answer::ALONE
    } else if sets.missing != 0 && common(x.held | y.held, sets.missing) {
        Answer::MISSING
    } else {
        ruled_by(sets, x, y)
    }
}

// The answer for nodes a and b.
pub fn pair(a: usize, b: usize, marks: &MaskTable, sets: Sets) -> u8
    requires { (a < 192) × (b < 192) }
    ensures { (R : Region) (size : Size) → Marks R marks.now sets.kinds → Sized R size sets → a < R.nodes → b < R.nodes → result ≡ answer_for R size a b }
{
    let x = profile_of(a, marks);
    answer_by(sets, x, profile_of(b, marks))
}
