// The numbers of the calls that answer for teams of any size or of one.
ghost use Rattle.std.specs.Prelude.{◌≡◌};
ghost use Rattle.output.specs.Output.{number_of as output_number_of};
ghost use Rattle.theory_calls.specs.Locks.{locks_written_for, locks_left_for};
ghost use Rattle.theory_calls.specs.Sheet.{sheet_written_for, sheet_left_for};
ghost use Rattle.theory_calls.specs.Pair.{pair_answered_for, number_of as pair_number_of};
ghost use Rattle.theory_calls.specs.Judged.{judged_for, number_of as judged_number_of};

use crate::written;
use call_judge::number::number_of;
use output::signed::{counted, negated};
use theory_answers::Size;

pub fn pair(chart: &[u8], region: usize, size: Size, a: usize, b: usize) -> i64
    ensures { result ≡ pair_number_of (pair_answered_for chart.now region size a b) }
{
    match call_pair::pair::pair(chart, region, size, a, b) {
        Ok(answer) => counted(usize::from(answer.number)),
        Err(refusal) => negated(refusal),
    }
}

pub fn sheet(chart: &[u8], region: usize, size: Size, out: &mut [u8]) -> i64
    ensures value { result ≡ output_number_of (sheet_written_for chart.now region size out.old) }
    ensures out_after { out.new ≡ sheet_left_for chart.now region size out.old }
{
    written::number_of(call_sheet::sheet(chart, region, size, out))
}

pub fn locks(chart: &[u8], region: usize, size: Size, out: &mut [u8]) -> i64
    ensures value { result ≡ output_number_of (locks_written_for chart.now region size out.old) }
    ensures out_after { out.new ≡ locks_left_for chart.now region size out.old }
{
    written::number_of(call_locks::locks(chart, region, size, out))
}

pub fn judge(chart: &[u8], region: usize, size: Size, claims: &[u8]) -> i64
    ensures { result ≡ judged_number_of (judged_for chart.now region size claims.now) }
{
    number_of(call_judge::judge::judge(chart, region, size, claims))
}
