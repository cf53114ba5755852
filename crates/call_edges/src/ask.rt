// Asking whether a chart with one edge more would be admitted. Nothing is written but scratch memory, which then holds that chart.
ghost use Rattle.std.specs.Prelude.{◌≡◌, ◌+◌, ◌≤◌, length, take};
ghost use Rattle.theory_edits.specs.Splice.{inserted};
ghost use Rattle.theory_edits.specs.Edits.{asked, number_of, receipt_of};
ghost use Rattle.theory_edits.specs.AskCorrect.{AskCorrect};
ghost use Rattle.theory_edits.specs.declared.Receipt.{Receipt};
ghost use Rattle.call_edges.specs.Splicing.{AdmittedAs};
ghost use Rattle.call_edges.specs.Asking.{asked_on};

use crate::checking::check_front;
use crate::numbers::edge_between;
use crate::splice::{place_of, put_longer};
use chart::format::{Chart, Edge, Refusal};
use theory_edits::Receipt;

// Rows 1 to 10 on the longer chart, of a chart that they let pass.
fn ask_longer(s: &[u8], chart: Chart, edge: Edge, longer: &mut [u8]) -> Result<Receipt, Refusal>
    requires { AdmittedAs s.now chart × (length longer.old ≡ 3122) }
    ensures value { result ≡ asked_on s.now edge.from edge.to }
    ensures longer_after { take (length s.now + 2) longer.new ≡ inserted s.now edge.from edge.to }
{
    let length = s.len();
    let place = place_of(s, chart, edge);
    put_longer(s, chart, edge, place, longer);
    check_front(longer, length + Edge::BYTES)?;
    Ok(Receipt { length, place })
}

// Row 4 for the length, rows 1 to 10 on the present chart, then on the longer one. Where none of them applies, the scratch memory begins with the
// longer chart.
pub fn ask_into(
    buffer: &[u8],
    len: usize,
    from: usize,
    to: usize,
    longer: &mut [u8],
) -> Result<Receipt, Refusal>
    requires { length longer.old ≡ 3122 }
    ensures value { result ≡ asked buffer.now len from to }
    ensures len_bound { (receipt : Receipt) → result ≡ Ok receipt → (len + 2 ≤ 3122) × (take (len + 2) longer.new ≡ inserted (take len buffer.now) from to) }
{
    let chart = check_front(buffer, len)?;
    ask_longer(&buffer[..len], chart, edge_between(from, to), longer)
}

// Whether the chart in the first `len` bytes of a buffer would be admitted with the edge (from, to): the receipt, or the first row that applies.
pub fn ask(buffer: &[u8], len: usize, from: usize, to: usize) -> Result<Receipt, Refusal>
    ensures value { result ≡ asked buffer.now len from to }
    ensures ask_correct { AskCorrect buffer.now len from to (number_of result) (receipt_of result) }
{
    let mut longer = [0u8; Chart::SCRATCH_BYTES];
    ask_into(buffer, len, from, to, &mut longer)
}
