// Rows 1 to 9 of the refusals over any bytes.
ghost use Rattle.std.specs.Prelude.{◌≡◌};
ghost use Rattle.chart.specs.Format.{decode};
ghost use Rattle.chart.specs.Refusal.{first_of, table_rows};
ghost use Rattle.chart.specs.Checked.{Laid, checked_by, checked};
ghost use Rattle.chart.specs.declared.format.Chart.{Chart};
ghost use Rattle.check_nodes.specs.Framed.{BothFramed};

use chart::format::{Chart, Framing, Refusal};
use check_constructs::nesting::bad_constructs;
use check_edges::bad_edges;
use check_nodes::counts::{bad_barriers, bad_frames};
use check_nodes::nodes::bad_nodes;
use check_trailer::read_trailer;

// Rows 5 to 9. Row 7 finds where the constructs begin and end; row 9 reads it.
fn check_tables(s: &[u8], chart: Chart, framing: &mut Framing) -> Result<Chart, Refusal>
    requires { Laid s.now chart }
    ensures value { result ≡ checked_by (first_of (table_rows (decode s.now))) chart }
    ensures both_framed { (counts : Chart) → result ≡ Ok counts → BothFramed (decode s.now) framing.new.begins framing.new.ends }
{
    if bad_nodes(s, chart) {
        return Err(Refusal::BadNodes);
    }
    if bad_constructs(s, chart) {
        return Err(Refusal::BadConstructs);
    }
    if bad_frames(s, chart, framing) {
        return Err(Refusal::BadFrames);
    }
    if bad_barriers(s, chart) {
        return Err(Refusal::BadBarriers);
    }
    if bad_edges(s, chart, framing) {
        return Err(Refusal::BadEdges);
    }
    Ok(chart)
}

// The first of rows 1 to 9 that applies, or the counts of the chart, and where its constructs begin and end.
pub fn check(s: &[u8], framing: &mut Framing) -> Result<Chart, Refusal>
    ensures value { result ≡ checked s.now }
    ensures both_framed { (chart : Chart) → result ≡ Ok chart → BothFramed (decode s.now) framing.new.begins framing.new.ends }
{
    let chart = read_trailer(s)?;
    check_tables(s, chart, framing)
}
