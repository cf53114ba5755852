// A region inside the outermost one: row 23 of the refusals, and the masks of a parallel's region of a chart that rows 1 to 10 let pass.
ghost use Rattle.std.specs.Prelude.{◌≡◌, ◌≢◌, ℕ};
ghost use Rattle.std.proofs.Math.Option.{none};
ghost use Rattle.chart.specs.Format.{outside, decode};
ghost use Rattle.chart.specs.Refusal.{first_of};
ghost use Rattle.chart.specs.Checked.{Laid, counts_of};
ghost use Rattle.theory_paths.specs.Admission.{admit_rows, bad_region};
ghost use Rattle.mark_tables.specs.Tables.{Accepted};
ghost use Rattle.mark_regions.specs.declared.outermost.Marked.{Marked};
ghost use Rattle.mark_regions.specs.Entered.{admitted_for, Entry};

use crate::outermost::{Marked, enter_region};
use chart::format::{Chart, Construct, Refusal};

// Row 23, of a number that names no region.
pub fn bad_region(s: &[u8], chart: Chart, region: usize) -> bool
    requires { Laid s.now chart × (region ≢ outside) }
    ensures { result ≡ bad_region (decode s.now) region }
{
    if region >= chart.constructs {
        return true;
    }
    if Construct::read(s, chart, region).kind == Construct::PARALLEL {
        return false;
    }
    true
}

// Row 23, and the masks and levels of a parallel's region, of an admitted chart.
pub fn enter_inner(
    s: &[u8],
    chart: Chart,
    region: usize,
    starts: &mut [u64; Chart::NODES],
    ends: &mut [u64; Chart::NODES],
    levels: &mut [u8; Chart::NODES],
) -> Result<Marked, Refusal>
    requires { (first_of (admit_rows s.now) ≡ none) × (counts_of s.now ≡ chart) × Accepted s.now chart × (region ≢ outside) }
    ensures value { result ≡ admitted_for s.now region }
    ensures entry { (m : Marked) → result ≡ Ok m → Entry s.now m.chart m.barriers starts.new ends.new levels.new }
{
    if bad_region(s, chart, region) {
        return Err(Refusal::NoRegion);
    }
    // marks of the outermost region stand there
    *starts = [0u64; Chart::NODES];
    *ends = [0u64; Chart::NODES];
    let inner = chart.read_for(region);
    enter_region(s, inner, starts, ends, levels)
}
