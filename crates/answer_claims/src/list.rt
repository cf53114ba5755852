// One list of claims against a chart whose nodes are marked: rows 12, 13 (`numbers`) and 21, and the first false claim.
ghost use Rattle.std.specs.Prelude.{◌≡◌, ℕ, ◌+◌, ◌*◌, ◌<◌, get_or, length};
ghost use Rattle.chart.specs.Refusal.{first_of};
ghost use Rattle.chart.specs.Checked.{reading};
ghost use Rattle.mark_tables.specs.Tables.{Accepted};
ghost use Rattle.theory_answers.specs.Answer.{answer_for};
ghost use Rattle.answer_constructs.specs.Marks.{Marks};
ghost use Rattle.theory_calls.specs.Claims.{is_false};
ghost use Rattle.theory_calls.specs.Judged.{claim_rows, verdict, answered};
ghost use Rattle.answer_claims.specs.OfMarks.{OfMarks};

use crate::numbers::bad_numbers;
use answer_constructs::kinds::Sets;
use answer_constructs::mask_table::MaskTable;
use answer_constructs::sizes::{bad_size, sets_for};
use answer_pairs::rules::pair;
use chart::format::{Chart, Refusal};
use theory_answers::{Answer, Size};

// Whether claim k is false.
fn is_false(claims: &[u8], k: usize, marks: &MaskTable, sets: Sets) -> bool
    requires { (2 * k + 1 < length claims.now) × ((j : ℕ) → get_or claims.now j 0 < 192) }
    ensures { OfMarks marks.now sets claims.now (λ R size. result ≡ is_false (answer_for R size) claims.now k) }
{
    let a = claims[2 * k] as usize;
    let b = claims[2 * k + 1] as usize;
    pair(a, b, marks, sets) == Answer::CONCURRENT
}

// The verdict on a list that is not refused: the index of its first false claim, where there is one.
fn first_false(claims: &[u8], marks: &MaskTable, sets: Sets) -> Option<usize>
    requires { (j : ℕ) → get_or claims.now j 0 < 192 }
    ensures { OfMarks marks.now sets claims.now (λ R size. result ≡ verdict (answer_for R size) claims.now) }
{
    for k in 0..claims.len() / 2 {
        if is_false(claims, k, marks, sets) {
            return Some(k);
        }
    }
    None
}

// Rows 12 and 13 over the whole list, row 21 of the size, then the verdict.
pub fn judge_claims(
    s: &[u8],
    chart: Chart,
    size: Size,
    claims: &[u8],
    marks: &MaskTable,
) -> Result<Option<usize>, Refusal>
    requires { Accepted s.now chart × Marks (reading s.now chart) marks.now marks.now.kinds }
    ensures { let R = reading s.now chart in
        result ≡ answered (first_of (claim_rows R size claims.now)) (verdict (answer_for R size) claims.now) }
{
    if claims.len() % 2 == 1 {
        return Err(Refusal::OddClaims);
    }
    if bad_numbers(s, chart, claims) {
        return Err(Refusal::BadNumber);
    }
    if bad_size(size) {
        return Err(Refusal::BadSize);
    }
    Ok(first_false(claims, marks, sets_for(s, chart, size, &marks.kinds)))
}
