// Pair as a call on a slice, the number of a region, a size and two numbers of nodes.
ghost use Rattle.std.specs.Prelude.{◌≡◌, ◌∷◌};
ghost use Rattle.chart.specs.Checked.{reading};
ghost use Rattle.chart.specs.Refusal.{first_of};
ghost use Rattle.theory_answers.specs.Answer.{answer_for};
ghost use Rattle.theory_answers.specs.Size.{size_rows};
ghost use Rattle.mark_tables.specs.Tables.{Accepted};
ghost use Rattle.answer_constructs.specs.Marks.{Marks};
ghost use Rattle.theory_calls.specs.Pair.{numbers_row, answered, pair_answered_for};

use answer_constructs::mask_table::MaskTable;
use answer_constructs::sizes::{bad_size, sets_for};
use answer_masks::survey;
use answer_pairs::numbers::bad_node;
use chart::format::{Chart, Refusal};
use theory_answers::{Answer, Size};

// Rows 13 and 21 and the answer, of a chart whose nodes are marked.
fn answer_pair(
    s: &[u8],
    chart: Chart,
    size: Size,
    marks: &MaskTable,
    a: usize,
    b: usize,
) -> Result<Answer, Refusal>
    requires { Accepted s.now chart × Marks (reading s.now chart) marks.now marks.now.kinds }
    ensures { let R = reading s.now chart in
        result ≡ answered (first_of (numbers_row R a b ∷ size_rows size)) (answer_for R size a b) }
{
    if bad_node(s, chart, a) {
        return Err(Refusal::BadNumber);
    }
    if bad_node(s, chart, b) {
        return Err(Refusal::BadNumber);
    }
    if bad_size(size) {
        return Err(Refusal::BadSize);
    }
    let number = answer_pairs::rules::pair(a, b, marks, sets_for(s, chart, size, &marks.kinds));
    Ok(Answer { number })
}

// The first of rows 1 to 10, 23, 13 and 21 that applies, or the answer for nodes a and b of the region and teams of this size.
pub fn pair(s: &[u8], region: usize, size: Size, a: usize, b: usize) -> Result<Answer, Refusal>
    ensures { result ≡ pair_answered_for s.now region size a b }
{
    let mut marks = MaskTable::NONE;
    let chart = survey(s, region, &mut marks)?;
    answer_pair(s, chart, size, &marks, a, b)
}
