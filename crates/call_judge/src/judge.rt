// Judge: a list of claims, each that two nodes of a region of a chart are never concurrent, passes or fails at its first false claim. What its number
// says about finished runs is in crate `theory_calls`, specs/Correct.antt.
ghost use Rattle.std.specs.Prelude.{◌≡◌};
ghost use Rattle.theory_calls.specs.Judged.{judged_for};

use answer_claims::list::judge_claims;
use answer_constructs::mask_table::MaskTable;
use answer_masks::survey;
use chart::format::Refusal;
use theory_answers::Size;

// The first of rows 1 to 10, 23, 12, 13 and 21 that applies, or the verdict for teams of this size.
pub fn judge(s: &[u8], region: usize, size: Size, claims: &[u8]) -> Result<Option<usize>, Refusal>
    ensures { result ≡ judged_for s.now region size claims.now }
{
    let mut marks = MaskTable::NONE;
    let chart = survey(s, region, &mut marks)?;
    judge_claims(s, chart, size, claims, &marks)
}
