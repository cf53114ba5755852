// What a call answers that writes a result to a lent buffer, and how an answer becomes C's signed number. What the buffer holds then is a
// definition, in specs/.
#![tactic(auto)]

ghost use Rattle.std.specs.Prelude.{◌≡◌, []};
ghost use Rattle.output.specs.Output.{output_rows, written_by};

use chart::format::Refusal;

pub mod signed;

// Bytes of a mask.
pub const MASK: usize = 8;

// Bytes that Phases writes for a node: its starts and its ends.
pub const PHASES_NODE: usize = 2 * MASK;

// Row 11, for a result of this size.
pub fn room_for(size: usize, room: usize) -> Result<usize, Refusal>
    ensures { result ≡ written_by (output_rows [] room size []) size }
{
    if room < size {
        return Err(Refusal::NoRoom);
    }
    Ok(size)
}
