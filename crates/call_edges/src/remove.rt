// Taking an edge out of a chart in a lent buffer (02, Note 7).
ghost use Rattle.std.specs.Prelude.{◌≡◌, ℕ, ◌-◌, ◌≤◌, length, take};
ghost use Rattle.output.specs.Output.{written_by, left_by};
ghost use Rattle.theory_edits.specs.Edits.{remove_written, remove_left};
ghost use Rattle.call_edges.specs.Splicing.{AdmittedAs};
ghost use Rattle.call_edges.specs.Removing.{short_rows, short_left};

use crate::checking::check_front;
use crate::numbers::edge_between;
use crate::splice::{lacks_edge, place_of, put_shorter};
use chart::format::{Chart, Edge, Refusal};
use chart_writing::scratch::put_part;

// Row 19, then rows 1 to 10 on the shorter chart, of a chart that rows 1 to 10 let pass.
fn ask_shorter(s: &[u8], chart: Chart, edge: Edge, shorter: &mut [u8]) -> Result<usize, Refusal>
    requires { AdmittedAs s.now chart × (length shorter.old ≡ 3122) }
    ensures value { result ≡ written_by (short_rows s.now edge.from edge.to) (length s.now - 2) }
    ensures by_index { (count : ℕ) → result ≡ Ok count → take (length s.now) shorter.new ≡ short_left s.now edge.from edge.to }
{
    let place = place_of(s, chart, edge);
    if lacks_edge(s, chart, edge, place) {
        return Err(Refusal::NoEdge);
    }
    let size = s.len() - Edge::BYTES;
    put_shorter(s, chart, place, shorter);
    check_front(shorter, size)?;
    Ok(size)
}

// The same of a chart in the front of a buffer; where no row applies, the shorter chart is copied there, with the two bytes that it frees.
fn remove_from(buffer: &mut [u8], len: usize, chart: Chart, edge: Edge) -> Result<usize, Refusal>
    requires { (len ≤ length buffer.old) × AdmittedAs (take len buffer.old) chart }
    ensures value { result ≡ written_by (short_rows (take len buffer.old) edge.from edge.to) (len - 2) }
    ensures buffer_after { let s = take len buffer.old in
        buffer.new ≡ left_by (short_rows s edge.from edge.to) (short_left s edge.from edge.to) buffer.old }
{
    let mut shorter = [0u8; Chart::SCRATCH_BYTES];
    let size = ask_shorter(&buffer[..len], chart, edge, &mut shorter)?;
    put_part(buffer, 0, &shorter[..len]);
    Ok(size)
}

// The first row that applies, or the length of the chart without the edge (from, to), which then stands in the buffer, with the two bytes past it 0.
pub fn remove_edge(buffer: &mut [u8], len: usize, from: usize, to: usize) -> Result<usize, Refusal>
    ensures value { result ≡ remove_written buffer.old len from to }
    ensures buffer_after { buffer.new ≡ remove_left buffer.old len from to }
{
    let chart = check_front(&buffer[..], len)?;
    remove_from(buffer, len, chart, edge_between(from, to))
}
