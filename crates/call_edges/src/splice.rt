// A chart with one edge more, and with one less, put together in scratch memory (02, Notes 6 and 7).
ghost use Rattle.std.specs.Prelude.{◌≡◌, not, cond, [], ◌∷◌, ◌++◌, ℕ, ◌+◌, ◌-◌, ◌≤◌, ◌<◌, length, take};
ghost use Rattle.chart.specs.Format.{decode, edge_at};
ghost use Rattle.chart.specs.Reading.{edge_in};
ghost use Rattle.chart.specs.Refusal.{rises};
ghost use Rattle.chart.specs.Checked.{Laid};
ghost use Rattle.chart_writing.specs.Bytes.{trailer_bytes};
ghost use Rattle.chart_writing.specs.Trailer.{trailer_for};
ghost use Rattle.chart_writing.specs.ScratchTrailer.{Small};
ghost use Rattle.theory_edits.specs.Splice.{place as place_of, records_from, inserted, removed};
ghost use Rattle.theory_edits.specs.PlaceLaws.{Rising};
ghost use Rattle.call_edges.specs.Splicing.{LaidAs, with_edges};

use chart::format::{Chart, Edge, Node};
use chart_writing::scratch::{put_byte, put_part, put_trailer};
use check_edges::rising;

// How many edges of a chart stand below this one.
pub fn place_of(s: &[u8], chart: Chart, edge: Edge) -> usize
    requires { Laid s.now chart }
    ensures { (result ≡ place_of (decode s.now).edges edge.from edge.to) × (result ≤ chart.edges) }
{
    let mut sum = 0;
    for i in 0..chart.edges {
        sum += usize::from(rising(Edge::read(s, chart, i), edge));
    }
    sum
}

// Whether a chart lacks this edge: edges that rise have it at its place, or nowhere.
pub fn lacks_edge(s: &[u8], chart: Chart, edge: Edge, place: usize) -> bool
    requires { Laid s.now chart × Rising (decode s.now).edges × (place ≡ place_of (decode s.now).edges edge.from edge.to) }
    ensures { result ≡ not (edge_in (decode s.now).edges edge.from edge.to) }
{
    chart.edges <= place || Edge::read(s, chart, place) != edge
}

fn with_edges(chart: Chart, edges: usize) -> Chart
    ensures { result ≡ with_edges chart edges }
{
    Chart { edges, ..chart }
}

// The records from byte `from` of s on, and the trailer for these counts.
fn put_rest(out: &mut [u8], at: usize, s: &[u8], from: usize, chart: Chart)
    requires { (from + 16 ≤ length s.now) × (at + (length s.now - from) ≤ length out.old) × Small chart }
    ensures { let rest = records_from s.now from ++ trailer_bytes (trailer_for chart.edition chart.nodes chart.edges chart.constructs) in
        take (at + (length s.now - from)) out.new ≡ take at out.old ++ rest }
{
    let end = s.len() - Chart::TRAILER_BYTES;
    put_part(out, at, &s[from..end]);
    put_trailer(out, at + (end - from), chart);
}

// The chart with the edge at its place among the edges.
pub fn put_longer(s: &[u8], chart: Chart, edge: Edge, place: usize, out: &mut [u8])
    requires { LaidAs s.now chart × (place ≡ place_of (decode s.now).edges edge.from edge.to) × (length s.now + 2 ≤ length out.old) }
    ensures { take (length s.now + 2) out.new ≡ inserted s.now edge.from edge.to }
{
    let at = Node::BYTES * chart.nodes + Edge::BYTES * place;
    put_part(out, 0, &s[..at]);
    put_byte(out, at, edge.from);
    put_byte(out, at + 1, edge.to);
    put_rest(out, at + 2, s, at, with_edges(chart, chart.edges + 1));
}

// The chart without the edge at this place among the edges, and 0 for each of the two bytes that are freed.
pub fn put_shorter(s: &[u8], chart: Chart, place: usize, out: &mut [u8])
    requires { LaidAs s.now chart × (place < chart.edges) × (length s.now ≤ length out.old) }
    ensures { (x y : ℕ) → place ≡ place_of (decode s.now).edges x y → take (length s.now) out.new ≡ removed s.now x y ++ (0 ∷ 0 ∷ []) }
{
    let at = Node::BYTES * chart.nodes + Edge::BYTES * place;
    let size = s.len() - Edge::BYTES;
    put_part(out, 0, &s[..at]);
    put_rest(
        out,
        at,
        s,
        at + Edge::BYTES,
        with_edges(chart, chart.edges - 1),
    );
    put_byte(out, size, 0);
    put_byte(out, size + 1, 0);
}
