// Rows 1 to 10 of the refusals over any bytes, and the counts of the trailer where none of them applies.
ghost use Rattle.std.specs.Prelude.{◌≡◌, take};
ghost use Rattle.chart.specs.Refusal.{first_of};
ghost use Rattle.chart.specs.Checked.{counts_of, checked_by};
ghost use Rattle.theory_paths.specs.Admission.{admit_rows};
ghost use Rattle.call_edges.specs.Asking.{front_rows};

use chart::format::{Chart, Refusal};
use mark_regions::entrance::enter;

fn check_all(s: &[u8]) -> Result<Chart, Refusal>
    ensures { result ≡ checked_by (first_of (admit_rows s.now)) (counts_of s.now) }
{
    let mut starts = [0u64; Chart::NODES];
    let mut ends = [0u64; Chart::NODES];
    let mut levels = [0u8; Chart::NODES];
    let marked = enter(s, Chart::OUTERMOST, &mut starts, &mut ends, &mut levels)?;
    Ok(marked.chart)
}

// The chart that the first `len` bytes of a buffer are: row 4 for a length beyond the buffer, whatever the bytes are, then rows 1 to 10.
pub fn check_front(buffer: &[u8], len: usize) -> Result<Chart, Refusal>
    ensures { result ≡ checked_by (first_of (front_rows buffer.now len)) (counts_of (take len buffer.now)) }
{
    if buffer.len() < len {
        return Err(Refusal::BadLengths);
    }
    check_all(&buffer[..len])
}
