// Locks as a call on slices: for each construct whether the lock of this critical is needed, or can be dropped, in finished runs or in all. What the
// bytes say about runs is in crate theory_calls, specs/LocksCorrect.antt.
#![tactic(auto)]

ghost use Rattle.std.specs.Prelude.{◌≡◌, [], length};
ghost use Rattle.chart.specs.Checked.{reading};
ghost use Rattle.theory_answers.specs.Size.{size_rows};
ghost use Rattle.theory_calls.specs.Locks.{locks_result, locks_written_for, locks_left_for};
ghost use Rattle.mark_tables.specs.Tables.{Accepted};
ghost use Rattle.answer_constructs.specs.Marks.{Marks};
ghost use Rattle.output.specs.Output.{output_rows, written_by, left_by};

use answer_constructs::mask_table::MaskTable;
use answer_constructs::sizes::room_sized;
use answer_locks::put_locks;
use answer_masks::survey;
use chart::format::{Chart, Refusal};
use theory_answers::Size;

// Rows 11 and 21 and the bytes, of a chart whose nodes are marked.
fn write_locks(
    s: &[u8],
    chart: Chart,
    size: Size,
    marks: &MaskTable,
    out: &mut [u8],
) -> Result<usize, Refusal>
    requires { Accepted s.now chart × Marks (reading s.now chart) marks.now marks.now.kinds }
    ensures result_value { let bytes = length (locks_result (reading s.now chart) size) in
        result ≡ written_by (output_rows [] (length out.old) bytes (size_rows size)) bytes }
    ensures out_after { let result = locks_result (reading s.now chart) size in
        out.new ≡ left_by (output_rows [] (length out.old) (length result) (size_rows size)) result out.old }
{
    let bytes = room_sized(chart.constructs, out.len(), size)?;
    put_locks(s, chart, size, marks, out);
    Ok(bytes)
}

// The first of rows 1 to 10, 23, 11 and 21 that applies, or the bytes written, for teams of this size.
pub fn locks(s: &[u8], region: usize, size: Size, out: &mut [u8]) -> Result<usize, Refusal>
    ensures value { result ≡ locks_written_for s.now region size out.old }
    ensures out_after { out.new ≡ locks_left_for s.now region size out.old }
{
    let mut marks = MaskTable::NONE;
    let chart = survey(s, region, &mut marks)?;
    write_locks(s, chart, size, &marks, out)
}
