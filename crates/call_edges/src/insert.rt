// Putting an edge into a chart in a lent buffer, by the receipt that asking gave (02, Note 6).
ghost use Rattle.std.specs.Prelude.{◌≡◌, ◌+◌, ◌≤◌, length, take};
ghost use Rattle.output.specs.Output.{written_by, left_by};
ghost use Rattle.theory_edits.specs.Edits.{insert_written, insert_left};
ghost use Rattle.call_edges.specs.Inserting.{late_rows};

use crate::ask::ask_into;
use chart::format::{Chart, Edge, Refusal};
use chart_writing::scratch::put_part;
use theory_edits::Receipt;

// Rows 17 and 18; where neither applies, the longer chart is copied to the front of the buffer. `present` is the receipt that asking gives now.
fn commit(
    buffer: &mut [u8],
    receipt: Receipt,
    present: Receipt,
    longer: &[u8],
) -> Result<usize, Refusal>
    requires { (present.length + 2 ≤ 3122) × (length longer.now ≡ 3122) }
    ensures value { result ≡ written_by (late_rows (length buffer.old) receipt present) (present.length + 2) }
    ensures buffer_after { buffer.new ≡ left_by (late_rows (length buffer.old) receipt present) (take (present.length + 2) longer.now) buffer.old }
{
    if receipt.length != present.length {
        return Err(Refusal::OldReceipt);
    }
    if receipt.place != present.place {
        return Err(Refusal::OldReceipt);
    }
    let size = present.length + Edge::BYTES;
    if buffer.len() < size {
        return Err(Refusal::NoSpace);
    }
    put_part(buffer, 0, &longer[..size]);
    Ok(size)
}

// The first row that applies, or the length of the chart with the edge (from, to), which then stands in the buffer.
pub fn insert_edge(
    buffer: &mut [u8],
    len: usize,
    receipt: Receipt,
    from: usize,
    to: usize,
) -> Result<usize, Refusal>
    ensures value { result ≡ insert_written buffer.old len receipt from to }
    ensures buffer_after { buffer.new ≡ insert_left buffer.old len receipt from to }
{
    let mut longer = [0u8; Chart::SCRATCH_BYTES];
    let present = ask_into(&buffer[..], len, from, to, &mut longer)?;
    commit(buffer, receipt, present, &longer)
}
