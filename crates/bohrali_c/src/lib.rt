// The archive for C: each call of `bohrali::c`, exported under its name with the same contract. A slice is a pointer and a length in C.
#![tactic(auto)]

ghost use Rattle.std.specs.Prelude.{◌≡◌};
ghost use Rattle.theory_calls.specs.Admission.{admitted, number_of as admission_number_of};
ghost use Rattle.theory_calls.specs.Distances.{distances_written, distances_left};
ghost use Rattle.theory_calls.specs.Races.{races_written, races_left};
ghost use Rattle.theory_calls.specs.Locks.{locks_written_for, locks_left_for};
ghost use Rattle.theory_calls.specs.Phases.{phases_written, phases_left};
ghost use Rattle.theory_calls.specs.Sheet.{sheet_written, sheet_left, sheet_written_for, sheet_left_for};
ghost use Rattle.theory_calls.specs.Pair.{pair_answered, pair_answered_for, number_of as pair_number_of};
ghost use Rattle.theory_calls.specs.Judged.{judged, judged_for, number_of as judged_number_of};
ghost use Rattle.theory_calls.specs.Correct.{Correct, CorrectIn};
ghost use Rattle.theory_calls.specs.PhasesCorrect.{PhasesCorrect, AdmitCorrect};
ghost use Rattle.theory_calls.specs.DistancesCorrect.{DistancesCorrect};
ghost use Rattle.theory_calls.specs.AnswersCorrect.{PairCorrect, PairCorrectIn, SheetCorrect, SheetCorrectIn};
ghost use Rattle.theory_calls.specs.RacesCorrect.{RacesCorrect};
ghost use Rattle.theory_calls.specs.LocksCorrect.{LocksCorrect, LocksCorrectIn};
ghost use Rattle.theory_calls.specs.WitnessedCorrect.{WitnessedCorrect};
ghost use Rattle.theory_calls.specs.Witness.{witnessed, number_of as witnessed_number_of};
ghost use Rattle.output.specs.Output.{number_of as output_number_of};
ghost use Rattle.theory_listing.specs.Call.{listing_written, listing_left};
ghost use Rattle.theory_listing.specs.ListingCorrect.{ListingCorrect};
ghost use Rattle.theory_answers.specs.declared.Size.TheVariants.{Any, Of};
ghost use Rattle.theory_edits.specs.InsertCorrect.{InsertCorrect};
ghost use Rattle.theory_edits.specs.RemoveCorrect.{RemoveCorrect};
ghost use Rattle.theory_edits.specs.Edits.{insert_written, insert_left, remove_written, remove_left};
ghost use Rattle.theory_edits.specs.declared.Receipt.{Receipt};

#[unsafe(no_mangle)]
pub extern "C" fn bohrali_admit(chart: &[u8]) -> i64
    ensures value { result ≡ admission_number_of (admitted chart.now) }
    ensures admit_correct { AdmitCorrect chart.now result }
{
    bohrali::c::bohrali_admit(chart)
}

#[unsafe(no_mangle)]
pub extern "C" fn bohrali_pair(chart: &[u8], region: usize, a: usize, b: usize) -> i64
    ensures value { result ≡ pair_number_of (pair_answered chart.now region a b) }
    ensures pair_correct { PairCorrect chart.now region a b result }
{
    bohrali::c::bohrali_pair(chart, region, a, b)
}

#[unsafe(no_mangle)]
pub extern "C" fn bohrali_pair_sized(
    chart: &[u8],
    region: usize,
    size: usize,
    a: usize,
    b: usize,
) -> i64
    ensures value { result ≡ pair_number_of (pair_answered_for chart.now region (Of size) a b) }
    ensures pair_correct_in { PairCorrectIn chart.now region size a b result }
{
    bohrali::c::bohrali_pair_sized(chart, region, size, a, b)
}

#[unsafe(no_mangle)]
pub extern "C" fn bohrali_phases(chart: &[u8], region: usize, out: &mut [u8]) -> i64
    ensures value { result ≡ output_number_of (phases_written chart.now region out.old) }
    ensures out_after { out.new ≡ phases_left chart.now region out.old }
    ensures phases_correct { PhasesCorrect chart.now region out.old result out.new }
{
    bohrali::c::bohrali_phases(chart, region, out)
}

#[unsafe(no_mangle)]
pub extern "C" fn bohrali_distances(chart: &[u8], region: usize, out: &mut [u8]) -> i64
    ensures value { result ≡ output_number_of (distances_written chart.now region out.old) }
    ensures out_after { out.new ≡ distances_left chart.now region out.old }
    ensures distances_correct { DistancesCorrect chart.now region out.old result out.new }
{
    bohrali::c::bohrali_distances(chart, region, out)
}

#[unsafe(no_mangle)]
pub extern "C" fn bohrali_listing(text: &[u8], out: &mut [u8]) -> i64
    ensures value { result ≡ output_number_of (listing_written text.now out.old) }
    ensures out_after { out.new ≡ listing_left text.now out.old }
    ensures listing_correct { ListingCorrect text.now out.old result out.new }
{
    bohrali::c::bohrali_listing(text, out)
}

#[unsafe(no_mangle)]
pub extern "C" fn bohrali_sheet(chart: &[u8], region: usize, out: &mut [u8]) -> i64
    ensures value { result ≡ output_number_of (sheet_written chart.now region out.old) }
    ensures out_after { out.new ≡ sheet_left chart.now region out.old }
    ensures sheet_correct { SheetCorrect chart.now region out.old result out.new }
{
    bohrali::c::bohrali_sheet(chart, region, out)
}

#[unsafe(no_mangle)]
pub extern "C" fn bohrali_sheet_sized(
    chart: &[u8],
    region: usize,
    size: usize,
    out: &mut [u8],
) -> i64
    ensures value { result ≡ output_number_of (sheet_written_for chart.now region (Of size) out.old) }
    ensures out_after { out.new ≡ sheet_left_for chart.now region (Of size) out.old }
    ensures sheet_correct_in { SheetCorrectIn chart.now region size out.old result out.new }
{
    bohrali::c::bohrali_sheet_sized(chart, region, size, out)
}

#[unsafe(no_mangle)]
pub extern "C" fn bohrali_judge(chart: &[u8], region: usize, claims: &[u8]) -> i64
    ensures value { result ≡ judged_number_of (judged chart.now region claims.now) }
    ensures correct { Correct chart.now region claims.now result }
{
    bohrali::c::bohrali_judge(chart, region, claims)
}

#[unsafe(no_mangle)]
pub extern "C" fn bohrali_judge_sized(
    chart: &[u8],
    region: usize,
    size: usize,
    claims: &[u8],
) -> i64
    ensures value { result ≡ judged_number_of (judged_for chart.now region (Of size) claims.now) }
    ensures correct_in { CorrectIn chart.now region size claims.now result }
{
    bohrali::c::bohrali_judge_sized(chart, region, size, claims)
}

#[unsafe(no_mangle)]
pub extern "C" fn bohrali_races(chart: &[u8], region: usize, accesses: &[u8], out: &mut [u8]) -> i64
    ensures value { result ≡ output_number_of (races_written chart.now region accesses.now out.old) }
    ensures out_after { out.new ≡ races_left chart.now region accesses.now out.old }
    ensures races_correct { RacesCorrect chart.now region accesses.now out.old result out.new }
{
    bohrali::c::bohrali_races(chart, region, accesses, out)
}

#[unsafe(no_mangle)]
pub extern "C" fn bohrali_locks(chart: &[u8], region: usize, out: &mut [u8]) -> i64
    ensures value { result ≡ output_number_of (locks_written_for chart.now region Any out.old) }
    ensures out_after { out.new ≡ locks_left_for chart.now region Any out.old }
    ensures locks_correct { LocksCorrect chart.now region out.old result out.new }
{
    bohrali::c::bohrali_locks(chart, region, out)
}

#[unsafe(no_mangle)]
pub extern "C" fn bohrali_locks_sized(
    chart: &[u8],
    region: usize,
    size: usize,
    out: &mut [u8],
) -> i64
    ensures value { result ≡ output_number_of (locks_written_for chart.now region (Of size) out.old) }
    ensures out_after { out.new ≡ locks_left_for chart.now region (Of size) out.old }
    ensures locks_correct_in { LocksCorrectIn chart.now region size out.old result out.new }
{
    bohrali::c::bohrali_locks_sized(chart, region, size, out)
}

#[unsafe(no_mangle)]
pub extern "C" fn bohrali_insert_edge(
    buffer: &mut [u8],
    chart_len: usize,
    receipt_length: usize,
    receipt_place: usize,
    from: usize,
    to: usize,
) -> i64
    ensures result_value { let receipt : Receipt = record { length = receipt_length; place = receipt_place } in
        result ≡ output_number_of (insert_written buffer.old chart_len receipt from to) }
    ensures buffer_after { let receipt : Receipt = record { length = receipt_length; place = receipt_place } in
        buffer.new ≡ insert_left buffer.old chart_len receipt from to }
    ensures fact { let receipt : Receipt = record { length = receipt_length; place = receipt_place } in
        InsertCorrect buffer.old chart_len receipt from to result buffer.new }
{
    bohrali::c::bohrali_insert_edge(buffer, chart_len, receipt_length, receipt_place, from, to)
}

#[unsafe(no_mangle)]
pub extern "C" fn bohrali_remove_edge(
    buffer: &mut [u8],
    chart_len: usize,
    from: usize,
    to: usize,
) -> i64
    ensures value { result ≡ output_number_of (remove_written buffer.old chart_len from to) }
    ensures buffer_after { buffer.new ≡ remove_left buffer.old chart_len from to }
    ensures remove_correct { RemoveCorrect buffer.old chart_len from to result buffer.new }
{
    bohrali::c::bohrali_remove_edge(buffer, chart_len, from, to)
}

#[unsafe(no_mangle)]
pub extern "C" fn bohrali_witnessed(
    chart: &[u8],
    region: usize,
    size: usize,
    trace: &[u8],
    a: usize,
    b: usize,
) -> i64
    ensures value { result ≡ witnessed_number_of (witnessed chart.now region size trace.now a b) }
    ensures witnessed_correct { WitnessedCorrect chart.now region size trace.now a b result }
{
    bohrali::c::bohrali_witnessed(chart, region, size, trace, a, b)
}
