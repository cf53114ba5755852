// The entrance of the calls that answer pairs: rows 1 to 10 and 23 of the refusals, and everything that the answers of a region are read off.
#![tactic(auto)]

ghost use Rattle.std.specs.Prelude.{◌≡◌, ◌≢◌};
ghost use Rattle.chart.specs.Format.{outside, decode};
ghost use Rattle.chart.specs.Refusal.{first_of};
ghost use Rattle.chart.specs.Checked.{counts_of, read_for, checked_by, checked};
ghost use Rattle.check_nodes.specs.Framed.{BothFramed};
ghost use Rattle.theory_paths.specs.Admission.{admit_rows, region_rows};
ghost use Rattle.mark_tables.specs.Tables.{Accepted};
ghost use Rattle.answer_masks.specs.Survey.{Blank, Survey};

use answer_constructs::held::fill_held;
use answer_constructs::mask_table::MaskTable;
use chart::format::{Chart, Framing, Refusal};
use check_chart::check::check;
use mark::boundaries::conclude;
use mark::returns::{add_ends, asked, returns};
use mark_regions::inner::bad_region;
use mark_regions::outermost::refuses;
use mark_tables::tables::load_tables;
use search::edges::{Extent, Parts};
use search::search::boundaries;

// Row 10, which is asked of the outermost region alone, and the masks of any region of a chart that rows 1 to 9 let pass, given where its
// constructs begin and end. The region's tables are loaded once, and all masks are found by them.
fn survey_region(
    s: &[u8],
    chart: Chart,
    framing: &Framing,
    marks: &mut MaskTable,
) -> Result<Chart, Refusal>
    requires accepted { Accepted s.now chart × (chart.region ≡ outside → checked s.now ≡ Ok chart) × Blank marks.old }
    requires both_framed { BothFramed (decode s.now) framing.now.begins framing.now.ends }
    ensures value { (chart.region ≡ outside → result ≡ checked_by (first_of (admit_rows s.now)) (counts_of s.now)) × (chart.region ≢ outside → result ≡ Ok chart) }
    ensures survey { (chart : Chart) → result ≡ Ok chart → Survey s.now chart marks.new }
{
    let mut edges = [[0u8; Chart::EDGES]; Parts::ROWS];
    let mut places = [0usize; Chart::PLACES];
    let mut stops = [0u8; Chart::NODES];
    let mut nodes = [0u8; Chart::BARRIERS];
    let mut levels = [0u8; Chart::NODES];
    let loaded = load_tables(s, chart, &mut edges, &mut places, &mut stops, &mut nodes);
    let barriers = loaded.barriers;
    let parts = loaded.parts;
    let n = asked(s, chart, framing, parts);
    let total = add_ends(&framing.ends, n, barriers, &mut nodes);
    let extent = Extent {
        barriers,
        total,
        nodes: loaded.nodes,
        parts,
    };
    boundaries(
        &edges,
        &places,
        extent,
        &nodes,
        &mut marks.starts,
        &mut levels,
        &mut marks.ends,
    );
    let returning = returns(framing, n, &edges, &places, extent, &mut marks.starts);
    let lost = conclude(&edges, &nodes, extent, &mut marks.starts, &marks.ends);
    if refuses(chart, lost) {
        return Err(Refusal::BadPaths);
    }
    marks.kinds = fill_held(s, chart, returning, &mut marks.held);
    Ok(chart)
}

// Rows 10 and 23, and all masks of all nodes of a parallel's region, of a chart that rows 1 to 9 let pass. The outermost region is marked
// before, for row 10, in the same table: another would be as large a frame of the stack again.
fn survey_inner(
    s: &[u8],
    chart: Chart,
    region: usize,
    framing: &Framing,
    marks: &mut MaskTable,
) -> Result<Chart, Refusal>
    requires s_value { (checked s.now ≡ Ok chart) × (region ≢ outside) × Blank marks.old }
    requires both_framed { BothFramed (decode s.now) framing.now.begins framing.now.ends }
    ensures value { result ≡ checked_by (first_of (region_rows s.now region)) (read_for (counts_of s.now) region) }
    ensures survey { (chart : Chart) → result ≡ Ok chart → Survey s.now chart marks.new }
{
    let whole = survey_region(s, chart, framing, marks)?;
    if bad_region(s, whole, region) {
        return Err(Refusal::NoRegion);
    }
    let inner = whole.read_for(region);
    *marks = MaskTable::NONE;
    survey_region(s, inner, framing, marks)
}

// The first of rows 1 to 10 and 23 that applies, or all masks of the region, which are 0 before.
pub fn survey(s: &[u8], region: usize, marks: &mut MaskTable) -> Result<Chart, Refusal>
    requires { Blank marks.old }
    ensures value { result ≡ checked_by (first_of (region_rows s.now region)) (read_for (counts_of s.now) region) }
    ensures survey { (chart : Chart) → result ≡ Ok chart → Survey s.now chart marks.new }
{
    let mut framing = Framing::NONE;
    let chart = check(s, &mut framing)?;
    if region == Chart::OUTERMOST {
        return survey_region(s, chart, &framing, marks);
    }
    survey_inner(s, chart, region, &framing, marks)
}
