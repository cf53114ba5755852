// Rows 1 to 10 of the refusals, and the masks of the outermost region of a chart that none of them refuses, with the fewest edges from a
// barrier to each node that is none.
ghost use Rattle.std.specs.Prelude.{◌≡◌, ◌≢◌, false, ℕ, replicate};
ghost use Rattle.chart.specs.Format.{outside};
ghost use Rattle.chart.specs.Checked.{checked};
ghost use Rattle.mark_tables.specs.Tables.{Accepted};
ghost use Rattle.mark_regions.specs.declared.outermost.Marked.{Marked};
ghost use Rattle.mark_regions.specs.Entered.{admitted, marked, Entry};

use chart::format::{Chart, Framing, Refusal};
use check_chart::check::check;
use mark::boundaries::fill;
use mark_tables::tables::load_tables;
use search::edges::Parts;

// A chart whose nodes are marked, and how many barriers its region has.
#[derive(Clone, Copy)]
pub struct Marked {
    pub chart: Chart,
    pub barriers: usize,
}

// Whether a node that the marking found cut off refuses the chart: row 10 is asked of the outermost region alone.
pub fn refuses(chart: Chart, lost: bool) -> bool
    ensures { (chart.region ≡ outside → result ≡ lost) × (chart.region ≢ outside → result ≡ false) }
{
    if chart.region == Chart::OUTERMOST {
        return lost;
    }
    false
}

// Row 10 and the masks of any region, which are 0 before, of a chart that rows 1 to 9 let pass.
pub fn enter_region(
    s: &[u8],
    chart: Chart,
    starts: &mut [u64; Chart::NODES],
    ends: &mut [u64; Chart::NODES],
    levels: &mut [u8; Chart::NODES],
) -> Result<Marked, Refusal>
    requires accepted { Accepted s.now chart × (chart.region ≡ outside → checked s.now ≡ Ok chart) }
    requires starts_value { (starts.old ≡ replicate 192 0) × (ends.old ≡ replicate 192 0) }
    ensures value { (chart.region ≡ outside → result ≡ admitted s.now) × (chart.region ≢ outside → result ≡ marked s.now chart) }
    ensures entry { (m : Marked) → result ≡ Ok m → Entry s.now m.chart m.barriers starts.new ends.new levels.new }
{
    let mut edges = [[0u8; Chart::EDGES]; Parts::ROWS];
    let mut places = [0usize; Chart::PLACES];
    let mut stops = [0u8; Chart::NODES];
    let mut nodes = [0u8; Chart::BARRIERS];
    let extent = load_tables(s, chart, &mut edges, &mut places, &mut stops, &mut nodes);
    let lost = fill(&edges, &places, &nodes, extent, starts, ends, levels);
    if refuses(chart, lost) {
        return Err(Refusal::BadPaths);
    }
    Ok(Marked {
        chart,
        barriers: extent.barriers,
    })
}

// The first of rows 1 to 10 that applies, or the masks and levels of all nodes, of the outermost region.
pub fn enter_outermost(
    s: &[u8],
    starts: &mut [u64; Chart::NODES],
    ends: &mut [u64; Chart::NODES],
    levels: &mut [u8; Chart::NODES],
) -> Result<Marked, Refusal>
    requires { (starts.old ≡ replicate 192 0) × (ends.old ≡ replicate 192 0) }
    ensures value { result ≡ admitted s.now }
    ensures entry { (m : Marked) → result ≡ Ok m → Entry s.now m.chart m.barriers starts.new ends.new levels.new }
{
    let mut framing = Framing::NONE;
    let chart = check(s, &mut framing)?;
    enter_region(s, chart, starts, ends, levels)
}
