// Two lists of claims against one region of a chart, which is marked once for both: a verdict for each, and the part of one of them from its first
// false claim on.
ghost use Rattle.std.specs.Prelude.{◌≡◌};
ghost use Rattle.theory_calls.specs.Judged.{judged};
ghost use Rattle.theory_calls.specs.Correct.{Correct};
ghost use Rattle.call_judge.specs.Two.{numbers, false_part, false_place};

use crate::number::number_of;
use crate::parts::{failed_at, false_part};
use answer_claims::list::judge_claims;
use answer_constructs::mask_table::MaskTable;
use answer_masks::survey;
use chart::format::Refusal;
use theory_answers::Size;

// The verdicts on the two lists.
#[derive(Clone, Copy)]
pub struct Verdicts {
    pub first: Result<Option<usize>, Refusal>,
    pub second: Result<Option<usize>, Refusal>,
}

// The verdict on each list, as on that list alone.
pub fn judge_both(s: &[u8], region: usize, x: &[u8], y: &[u8]) -> Verdicts
    ensures { (result.first ≡ judged s.now region x.now) × (result.second ≡ judged s.now region y.now) }
{
    let mut marks = MaskTable::NONE;
    match survey(s, region, &mut marks) {
        Err(refusal) => Verdicts {
            first: Err(refusal),
            second: Err(refusal),
        },
        Ok(chart) => {
            let first = judge_claims(s, chart, Size::Any, x, &marks);
            let second = judge_claims(s, chart, Size::Any, y, &marks);
            Verdicts { first, second }
        }
    }
}

// Each list's number is the one that Judge gives it, and about finished runs as true as Judge's. The part is of the list that fails, of the one that
// fails at the lower index where both do, and of the first on a tie; where neither fails it is the empty part at the first list's start.
pub fn judge_two<'a>(
    s: &[u8],
    region: usize,
    x: &'a [u8],
    y: &'a [u8],
    first: &mut i64,
    second: &mut i64,
) -> &'a [u8]
    ensures first_after { first.new ≡ (numbers s.now region x.now y.now).0 }
    ensures second_after { second.new ≡ (numbers s.now region x.now y.now).1 }
    ensures result_value { result.now ≡ false_part s.now region x.now y.now }
    ensures ref_ptr_value { result.ref_ptr ≡ false_place s.now region x.now y.now x.entry.ref_ptr y.entry.ref_ptr }
    ensures correct { Correct s.now region x.now first.new }
    ensures correct_2 { Correct s.now region y.now second.new }
{
    let verdicts = judge_both(s, region, x, y);
    let v = verdicts.first;
    let w = verdicts.second;
    *first = number_of(v);
    *second = number_of(w);
    false_part(x, y, failed_at(v), failed_at(w))
}
