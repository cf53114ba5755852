// The sheet, row by row, from sets of nodes (`rows`).
ghost use Rattle.std.specs.Prelude.{◌≡◌, true, ◌++◌, ℕ, ◌*◌, ◌≤◌, ◌<◌, length, get_or, drop};
ghost use Rattle.chart.specs.Region.{Region};
ghost use Rattle.chart.specs.Checked.{reading};
ghost use Rattle.theory_answers.specs.Answer.{answer_for};
ghost use Rattle.theory_answers.specs.Numbers.{asked};
ghost use Rattle.theory_answers.specs.Sheet.{entry as entry_of, row, sheet};
ghost use Rattle.mark_tables.specs.Tables.{Accepted, Closed};
ghost use Rattle.answer_constructs.specs.Marks.{Marks};

use crate::eights::{BYTES, WORDS, fill_fence, fill_spread};
use crate::rows::{keep_row, work_row};
use answer_constructs::mask_table::MaskTable;
use answer_constructs::sizes::sets_for;
use answer_nodes::{NodeSets, gather_all};
use answer_pairs::rules::{Profile, profile_of};
use chart::format::Chart;
use mark_tables::closed::load_closed;
use theory_answers::{Answer, Size};

// Row a of the sheet fills `out`, which is the row's part of the buffer and nothing else. Where a claim may name node a, `last` is its row.
pub fn fill_row(a: usize, closed: &[u8; Chart::NODES], last: &[u8; Chart::NODES], out: &mut [u8])
    requires { (length out.old ≤ 192) × (a < length out.old) }
    ensures { (R : Region) (f : ℕ → ℕ → ℕ) → R.nodes ≡ length out.old → Closed R closed.now
        → (asked R a ≡ true → (j : ℕ) → j < R.nodes → get_or last.now j 0 ≡ entry_of R f a j)
        → out.new ≡ row R f a }
{
    if closed[a] != 0 {
        out.fill(Answer::BARRIER);
    } else {
        out.copy_from_slice(&last[..out.len()]);
    }
}

// The sheet fills the front of `out`: row a is the part that starts at a * n, lent on to the row's filler.
pub fn fill_sheet(s: &[u8], chart: Chart, size: Size, marks: &MaskTable, out: &mut [u8])
    requires { Accepted s.now chart × Marks (reading s.now chart) marks.now marks.now.kinds × (chart.nodes * chart.nodes ≤ length out.old) }
    ensures { let R = reading s.now chart in
        let result = sheet R (answer_for R size) in
        out.new ≡ result ++ drop (length result) out.old }
{
    let sets = sets_for(s, chart, size, &marks.kinds);
    let mut closed = [0u8; Chart::NODES];
    load_closed(s, chart, &mut closed);
    let mut nodes = NodeSets::NONE;
    gather_all(chart.nodes, marks, &closed, &mut nodes);
    let mut fence = [0u64; WORDS];
    fill_fence(&closed, &mut fence);
    let mut spread = [0u64; BYTES];
    fill_spread(&mut spread);
    let mut last = [0u8; Chart::NODES];
    let mut kept = Profile {
        starts: 0,
        ends: 0,
        held: 0,
    };
    work_row(kept, sets, &nodes, &fence, &spread, &mut last);
    let n = chart.nodes;
    for a in 0..n {
        kept = keep_row(
            profile_of(a, marks),
            closed[a],
            kept,
            sets,
            &nodes,
            &fence,
            &spread,
            &mut last,
        );
        fill_row(a, &closed, &last, &mut out[a * n..(a + 1) * n]);
    }
}
