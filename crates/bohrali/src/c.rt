// The calls in C. A slice is a pointer and a length there; each call returns one signed number. Each but Admit and those that write or change a
// chart names a region of the chart, by the number of a parallel or by 255 for the outermost one; any other number is refused. Those that end in
// `_sized` are for teams of just so many threads (02, Note 10), from 1 to 1,024. A contract has one equation for the number and one for each lent
// buffer. Its last part says what they mean, in paths, barriers, constructs and runs: demand 3 for Judge, demand 2 for 01's other calls, and for
// the rest what is asked of them.
ghost use Rattle.std.specs.Prelude.{◌≡◌};
ghost use Rattle.theory_calls.specs.Admission.{admitted, number_of as admission_number_of};
ghost use Rattle.theory_calls.specs.Distances.{distances_written, distances_left};
ghost use Rattle.theory_calls.specs.Races.{races_written, races_left};
ghost use Rattle.theory_calls.specs.Locks.{locks_written_for, locks_left_for};
ghost use Rattle.theory_calls.specs.Phases.{phases_written, phases_left};
ghost use Rattle.theory_calls.specs.Sheet.{sheet_written, sheet_left, sheet_written_for, sheet_left_for};
ghost use Rattle.theory_calls.specs.Pair.{pair_answered, pair_answered_for, number_of as pair_number_of};
ghost use Rattle.theory_calls.specs.Judged.{judged, judged_for, number_of as judged_number_of};
ghost use Rattle.theory_calls.specs.Correct.{Correct, CorrectIn};
ghost use Rattle.theory_calls.specs.PhasesCorrect.{PhasesCorrect, AdmitCorrect};
ghost use Rattle.theory_calls.specs.DistancesCorrect.{DistancesCorrect};
ghost use Rattle.theory_calls.specs.AnswersCorrect.{PairCorrect, PairCorrectIn, SheetCorrect, SheetCorrectIn};
ghost use Rattle.theory_calls.specs.RacesCorrect.{RacesCorrect};
ghost use Rattle.theory_calls.specs.LocksCorrect.{LocksCorrect, LocksCorrectIn};
ghost use Rattle.theory_calls.specs.WitnessedCorrect.{WitnessedCorrect};
ghost use Rattle.theory_calls.specs.Witness.{witnessed, number_of as witnessed_number_of};
ghost use Rattle.output.specs.Output.{number_of as output_number_of};
ghost use Rattle.theory_listing.specs.Call.{listing_written, listing_left};
ghost use Rattle.theory_listing.specs.ListingCorrect.{ListingCorrect};
ghost use Rattle.theory_answers.specs.declared.Size.TheVariants.{Any, Of};
ghost use Rattle.theory_edits.specs.InsertCorrect.{InsertCorrect};
ghost use Rattle.theory_edits.specs.RemoveCorrect.{RemoveCorrect};
ghost use Rattle.theory_edits.specs.Edits.{insert_written, insert_left, remove_written, remove_left};
ghost use Rattle.theory_edits.specs.declared.Receipt.{Receipt};

use crate::sized::{judge, locks, pair, sheet};
use crate::{counts, witnessed, written};
use call_edges::insert::insert_edge;
use call_edges::remove::remove_edge;
use theory_answers::Size;
use theory_edits::Receipt;

#[unsafe(no_mangle)]
pub extern "C" fn bohrali_admit(chart: &[u8]) -> i64
    ensures value { result ≡ admission_number_of (admitted chart.now) }
    ensures admit_correct { AdmitCorrect chart.now result }
{
    counts::number_of(call_admit::admit::admit(chart))
}

#[unsafe(no_mangle)]
pub extern "C" fn bohrali_pair(chart: &[u8], region: usize, a: usize, b: usize) -> i64
    ensures value { result ≡ pair_number_of (pair_answered chart.now region a b) }
    ensures pair_correct { PairCorrect chart.now region a b result }
{
    pair(chart, region, Size::Any, a, b)
}

#[unsafe(no_mangle)]
pub extern "C" fn bohrali_pair_sized(
    chart: &[u8],
    region: usize,
    size: usize,
    a: usize,
    b: usize,
) -> i64
    ensures value { result ≡ pair_number_of (pair_answered_for chart.now region (Of size) a b) }
    ensures pair_correct_in { PairCorrectIn chart.now region size a b result }
{
    pair(chart, region, Size::Of(size), a, b)
}

#[unsafe(no_mangle)]
pub extern "C" fn bohrali_phases(chart: &[u8], region: usize, out: &mut [u8]) -> i64
    ensures value { result ≡ output_number_of (phases_written chart.now region out.old) }
    ensures out_after { out.new ≡ phases_left chart.now region out.old }
    ensures phases_correct { PhasesCorrect chart.now region out.old result out.new }
{
    written::number_of(call_phases::writing::phases(chart, region, out))
}

#[unsafe(no_mangle)]
pub extern "C" fn bohrali_distances(chart: &[u8], region: usize, out: &mut [u8]) -> i64
    ensures value { result ≡ output_number_of (distances_written chart.now region out.old) }
    ensures out_after { out.new ≡ distances_left chart.now region out.old }
    ensures distances_correct { DistancesCorrect chart.now region out.old result out.new }
{
    written::number_of(call_distances::distances(chart, region, out))
}

// The chart of a directive listing, written to the buffer: its length.
#[unsafe(no_mangle)]
pub extern "C" fn bohrali_listing(text: &[u8], out: &mut [u8]) -> i64
    ensures value { result ≡ output_number_of (listing_written text.now out.old) }
    ensures out_after { out.new ≡ listing_left text.now out.old }
    ensures listing_correct { ListingCorrect text.now out.old result out.new }
{
    written::number_of(call_listing::drawing::listing(text, out))
}

#[unsafe(no_mangle)]
pub extern "C" fn bohrali_sheet(chart: &[u8], region: usize, out: &mut [u8]) -> i64
    ensures value { result ≡ output_number_of (sheet_written chart.now region out.old) }
    ensures out_after { out.new ≡ sheet_left chart.now region out.old }
    ensures sheet_correct { SheetCorrect chart.now region out.old result out.new }
{
    sheet(chart, region, Size::Any, out)
}

#[unsafe(no_mangle)]
pub extern "C" fn bohrali_sheet_sized(
    chart: &[u8],
    region: usize,
    size: usize,
    out: &mut [u8],
) -> i64
    ensures value { result ≡ output_number_of (sheet_written_for chart.now region (Of size) out.old) }
    ensures out_after { out.new ≡ sheet_left_for chart.now region (Of size) out.old }
    ensures sheet_correct_in { SheetCorrectIn chart.now region size out.old result out.new }
{
    sheet(chart, region, Size::Of(size), out)
}

#[unsafe(no_mangle)]
pub extern "C" fn bohrali_judge(chart: &[u8], region: usize, claims: &[u8]) -> i64
    ensures value { result ≡ judged_number_of (judged chart.now region claims.now) }
    ensures correct { Correct chart.now region claims.now result }
{
    judge(chart, region, Size::Any, claims)
}

#[unsafe(no_mangle)]
pub extern "C" fn bohrali_judge_sized(
    chart: &[u8],
    region: usize,
    size: usize,
    claims: &[u8],
) -> i64
    ensures value { result ≡ judged_number_of (judged_for chart.now region (Of size) claims.now) }
    ensures correct_in { CorrectIn chart.now region size claims.now result }
{
    judge(chart, region, Size::Of(size), claims)
}

#[unsafe(no_mangle)]
pub extern "C" fn bohrali_races(chart: &[u8], region: usize, accesses: &[u8], out: &mut [u8]) -> i64
    ensures value { result ≡ output_number_of (races_written chart.now region accesses.now out.old) }
    ensures out_after { out.new ≡ races_left chart.now region accesses.now out.old }
    ensures races_correct { RacesCorrect chart.now region accesses.now out.old result out.new }
{
    written::number_of(call_races::races(chart, region, accesses, out))
}

// For each construct a byte: 0 the lock of this critical is needed, 1 it can be dropped as far as finished runs go, 2 in every run; 255 it is no
// critical of the region.
#[unsafe(no_mangle)]
pub extern "C" fn bohrali_locks(chart: &[u8], region: usize, out: &mut [u8]) -> i64
    ensures value { result ≡ output_number_of (locks_written_for chart.now region Any out.old) }
    ensures out_after { out.new ≡ locks_left_for chart.now region Any out.old }
    ensures locks_correct { LocksCorrect chart.now region out.old result out.new }
{
    locks(chart, region, Size::Any, out)
}

#[unsafe(no_mangle)]
pub extern "C" fn bohrali_locks_sized(
    chart: &[u8],
    region: usize,
    size: usize,
    out: &mut [u8],
) -> i64
    ensures value { result ≡ output_number_of (locks_written_for chart.now region (Of size) out.old) }
    ensures out_after { out.new ≡ locks_left_for chart.now region (Of size) out.old }
    ensures locks_correct_in { LocksCorrectIn chart.now region size out.old result out.new }
{
    locks(chart, region, Size::Of(size), out)
}

// The chart is the first `chart_len` bytes of the buffer; the receipt's two numbers are those that asking gave.
#[unsafe(no_mangle)]
pub extern "C" fn bohrali_insert_edge(
    buffer: &mut [u8],
    chart_len: usize,
    receipt_length: usize,
    receipt_place: usize,
    from: usize,
    to: usize,
) -> i64
    ensures result_value { let receipt : Receipt = record { length = receipt_length; place = receipt_place } in
        result ≡ output_number_of (insert_written buffer.old chart_len receipt from to) }
    ensures buffer_after { let receipt : Receipt = record { length = receipt_length; place = receipt_place } in
        buffer.new ≡ insert_left buffer.old chart_len receipt from to }
    ensures fact { let receipt : Receipt = record { length = receipt_length; place = receipt_place } in
        InsertCorrect buffer.old chart_len receipt from to result buffer.new }
{
    let receipt = Receipt {
        length: receipt_length,
        place: receipt_place,
    };
    written::number_of(insert_edge(buffer, chart_len, receipt, from, to))
}

// The chart is the first `chart_len` bytes of the buffer.
#[unsafe(no_mangle)]
pub extern "C" fn bohrali_remove_edge(
    buffer: &mut [u8],
    chart_len: usize,
    from: usize,
    to: usize,
) -> i64
    ensures value { result ≡ output_number_of (remove_written buffer.old chart_len from to) }
    ensures buffer_after { buffer.new ≡ remove_left buffer.old chart_len from to }
    ensures remove_correct { RemoveCorrect buffer.old chart_len from to result buffer.new }
{
    written::number_of(remove_edge(buffer, chart_len, from, to))
}

// Whether a trace is a finished run of a team of `size` threads, by the team rules, that has two of them at a and b together.
#[unsafe(no_mangle)]
pub extern "C" fn bohrali_witnessed(
    chart: &[u8],
    region: usize,
    size: usize,
    trace: &[u8],
    a: usize,
    b: usize,
) -> i64
    ensures value { result ≡ witnessed_number_of (witnessed chart.now region size trace.now a b) }
    ensures witnessed_correct { WitnessedCorrect chart.now region size trace.now a b result }
{
    witnessed::number_of(call_witnessed::witnessed(chart, region, size, trace, a, b))
}
