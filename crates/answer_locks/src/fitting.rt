// The nodes that threads of a team can be at: of a known size, none where the team has one thread, which nobody can meet, and none inside a master for a
// thread that it lacks.
ghost use Rattle.std.specs.Prelude.{◌≡◌, ◌&&◌, not, ◌≤◌, eqb, length};
ghost use Rattle.answer_locks.specs.Fitting.{lacking, Fitting};

use answer_constructs::kinds::Sets;
use answer_constructs::mask_table::MaskTable;
use chart::format::Chart;
use masks::bits::common;

// The flag of a node that holds this.
fn shut_flag(closed: u8, held: u64, sets: Sets) -> u8
    ensures { eqb result 0 ≡ (eqb closed 0 && not (lacking sets held)) }
{
    if sets.alone || common(held, sets.missing) {
        1
    } else {
        closed
    }
}

// A flag on the nodes that are closed, and on those that the team cannot have.
pub fn close_lacking(
    n: usize,
    marks: &MaskTable,
    sets: Sets,
    closed: &[u8; Chart::NODES],
    shut: &mut [u8; Chart::NODES],
)
    requires { (n ≤ 192) × (length shut.old ≡ 192) }
    ensures { Fitting n sets marks.now.held closed.now shut.new }
{
    for x in 0..n {
        shut[x] = shut_flag(closed[x], marks.held[x], sets);
    }
}
