// Races as a call on slices (02, Note 9): for all pairs of a list of accesses, whether they race, and whether a lock keeps them apart. What the bytes
// say about finished runs is in crate `theory_calls`, specs/RacesCorrect.antt.
#![tactic(auto)]

ghost use Rattle.std.specs.Prelude.{◌≡◌, List, [], ◌∷◌, ℕ, length};
ghost use Rattle.chart.specs.Checked.{reading};
ghost use Rattle.mark_tables.specs.Tables.{Accepted};
ghost use Rattle.answer_constructs.specs.Marks.{Marks};
ghost use Rattle.output.specs.Output.{output_rows, written_by, left_by};
ghost use Rattle.theory_calls.specs.Access.{accesses_row};
ghost use Rattle.theory_calls.specs.Races.{races as races_of, races_written, races_left};

use answer_constructs::mask_table::MaskTable;
use answer_masks::survey;
use answer_races::bytes::put_races;
use answer_races::list::bad_accesses;
use chart::format::{Chart, Refusal};
use output::room_for;
use theory_calls::Access;

// Rows 20 and 11 and the bytes, of a chart whose nodes are marked.
fn write_races(
    s: &[u8],
    chart: Chart,
    marks: &MaskTable,
    accesses: &[u8],
    out: &mut [u8],
) -> Result<usize, Refusal>
    requires { Accepted s.now chart × ((kinds : List ℕ) × Marks (reading s.now chart) marks.now kinds) }
    ensures result_value { let R = reading s.now chart in
        let list = accesses.now in
        let size = length (races_of R list) in
        result ≡ written_by (output_rows (accesses_row R list ∷ []) (length out.old) size []) size }
    ensures out_after { let R = reading s.now chart in
        let list = accesses.now in
        let result = races_of R list in
        out.new ≡ left_by (output_rows (accesses_row R list ∷ []) (length out.old) (length result) []) result out.old }
{
    if bad_accesses(s, chart, accesses) {
        return Err(Refusal::BadAccesses);
    }
    let n = accesses.len() / Access::BYTES;
    let size = room_for(n * (n + 1) / 2, out.len())?;
    put_races(s, chart, marks, accesses, out);
    Ok(size)
}

// The first of rows 1 to 10, 23, 20 and 11 that applies, or the bytes written.
pub fn races(s: &[u8], region: usize, accesses: &[u8], out: &mut [u8]) -> Result<usize, Refusal>
    ensures value { result ≡ races_written s.now region accesses.now out.old }
    ensures out_after { out.new ≡ races_left s.now region accesses.now out.old }
{
    let mut marks = MaskTable::NONE;
    let chart = survey(s, region, &mut marks)?;
    write_races(s, chart, &marks, accesses, out)
}
