// Sheet as a call on slices: it writes a result to a lent buffer.
#![tactic(auto)]

ghost use Rattle.std.specs.Prelude.{◌≡◌, [], length};
ghost use Rattle.chart.specs.Checked.{reading};
ghost use Rattle.theory_answers.specs.Answer.{answer_for};
ghost use Rattle.theory_answers.specs.Size.{size_rows};
ghost use Rattle.theory_answers.specs.Sheet.{sheet as sheet_of};
ghost use Rattle.mark_tables.specs.Tables.{Accepted};
ghost use Rattle.answer_constructs.specs.Marks.{Marks};
ghost use Rattle.output.specs.Output.{output_rows, written_by, left_by};
ghost use Rattle.theory_calls.specs.Sheet.{sheet_written_for, sheet_left_for};

use answer_constructs::mask_table::MaskTable;
use answer_constructs::sizes::room_sized;
use answer_masks::survey;
use answer_sheet::sheet::fill_sheet;
use chart::format::{Chart, Refusal};
use theory_answers::Size;

// Rows 11 and 21 and the bytes of Sheet, of a chart whose nodes are marked.
fn write_sheet(
    s: &[u8],
    chart: Chart,
    size: Size,
    marks: &MaskTable,
    out: &mut [u8],
) -> Result<usize, Refusal>
    requires { Accepted s.now chart × Marks (reading s.now chart) marks.now marks.now.kinds }
    ensures result_value { let R = reading s.now chart in
        let bytes = length (sheet_of R (answer_for R size)) in
        result ≡ written_by (output_rows [] (length out.old) bytes (size_rows size)) bytes }
    ensures out_after { let R = reading s.now chart in
        let result = sheet_of R (answer_for R size) in
        out.new ≡ left_by (output_rows [] (length out.old) (length result) (size_rows size)) result out.old }
{
    let n = chart.nodes;
    let bytes = room_sized(n * n, out.len(), size)?;
    fill_sheet(s, chart, size, marks, out);
    Ok(bytes)
}

// The first of rows 1 to 10, 23, 11 and 21 that applies, or the bytes written, of the answers for teams of this size.
pub fn sheet(s: &[u8], region: usize, size: Size, out: &mut [u8]) -> Result<usize, Refusal>
    ensures value { result ≡ sheet_written_for s.now region size out.old }
    ensures out_after { out.new ≡ sheet_left_for s.now region size out.old }
{
    let mut marks = MaskTable::NONE;
    let chart = survey(s, region, &mut marks)?;
    write_sheet(s, chart, size, &marks, out)
}
