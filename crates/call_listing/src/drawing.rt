// The chart of a listing, written to a lent buffer (02, Note 2). It is put together in scratch memory, and nothing is written before the last row
// has let it pass.
ghost use Rattle.std.specs.Prelude.{◌≡◌, ℕ, ◌+◌, ◌*◌, length, take};
ghost use Rattle.chart.specs.Checked.{Laid};
ghost use Rattle.chart_writing.specs.ScratchTrailer.{Small};
ghost use Rattle.output.specs.Output.{written_by, left_by};
ghost use Rattle.theory_listing.specs.Tree.{Block};
ghost use Rattle.theory_listing.specs.Grammar.{up_to, listed};
ghost use Rattle.theory_listing.specs.Meaning.{block_bytes};
ghost use Rattle.theory_listing.specs.Call.{listing_written, listing_left};
ghost use Rattle.call_listing.specs.Chart.{counts_for, ListedWithin, Tabled, Covers, table_bytes, late_rows};

use crate::reader::{Extent, read_limited};
use crate::records::{put_cell, put_record};
use crate::tables::{Spot, ahead, fill_block};
use chart::format::{Chart, Construct, Edge, Node, Refusal};
use chart_writing::scratch::{put_part, put_trailer};
use check_constructs::nesting::bad_constructs;
use check_nodes::counts::bad_barriers;
use check_nodes::nodes::bad_nodes;

// The tables of the chart of a text with so many nodes, Start and Finish around them. How many edges there are.
fn fill_tables(
    text: &[u8],
    count: usize,
    nodes: &mut [u8],
    edges: &mut [u8],
    parts: &mut [u8],
) -> usize
    requires { ((constructs : ℕ) × ListedWithin text.now count constructs) × (length nodes.old ≡ 768) × (length edges.old ≡ 768) × (length parts.old ≡ 192) }
    ensures { (b : Block) (last : ℕ) → listed text.now ≡ up_to b last → Tabled b count result nodes.new edges.new parts.new }
{
    let finish = count + 1;
    let first = ahead(text, 0, 1, finish);
    let start = Node {
        kind: Node::BARRIER,
        number: Construct::NONE,
    };
    let edge = put_cell(start, 0, first, first, 0, nodes, edges);
    let inner = Spot {
        at: 0,
        depth: Extent::DEPTH,
        owner: Construct::NONE,
        part: 0,
        node: 1,
        follow: finish,
        edge,
    };
    let all = fill_block(text, inner, nodes, edges, parts);
    put_record(nodes, finish, Node::BARRIER, Construct::NONE);
    all
}

// The bytes of a chart of edition 1, from its tables.
fn put_chart(out: &mut [u8], chart: Chart, nodes: &[u8], edges: &[u8], parts: &[u8])
    requires { (length out.old ≡ 3122) × Small chart × Covers chart nodes.now edges.now parts.now }
    ensures { let bytes = 4 * chart.nodes + 2 * chart.edges + 4 * chart.constructs + 16 in
        take bytes out.new ≡ table_bytes chart nodes.now edges.now parts.now }
{
    let n = Node::BYTES * chart.nodes;
    let e = Edge::BYTES * chart.edges;
    let c = Construct::BYTES_1 * chart.constructs;
    put_part(out, 0, &nodes[..n]);
    put_part(out, n, &edges[..e]);
    put_part(out, n + e, &parts[..c]);
    put_trailer(out, n + e + c, chart);
}

// The chart of a text, in scratch memory.
fn draw(text: &[u8], nodes: usize, constructs: usize, out: &mut [u8]) -> Chart
    requires { ListedWithin text.now nodes constructs × (length out.old ≡ 3122) }
    ensures { (b : Block) (last : ℕ) → listed text.now ≡ up_to b last → (result ≡ counts_for b) × (take (length (block_bytes b)) out.new ≡ block_bytes b) }
{
    let mut node_table = [0u8; Spot::NODE_BYTES];
    let mut edge_table = [0u8; Spot::EDGE_BYTES];
    let mut part_table = [0u8; Spot::PART_BYTES];
    let edges = fill_tables(
        text,
        nodes,
        &mut node_table,
        &mut edge_table,
        &mut part_table,
    );
    let chart = Chart {
        edition: Chart::EDITION_1,
        nodes: nodes + 2,
        edges,
        constructs,
        region: Chart::OUTERMOST,
    };
    put_chart(out, chart, &node_table, &edge_table, &part_table);
    chart
}

// Rows 5, 6, 8 and 11; where none applies, the chart is copied to the buffer.
fn hand_over(bytes: &[u8], chart: Chart, out: &mut [u8]) -> Result<usize, Refusal>
    requires { Laid bytes.now chart }
    ensures value { result ≡ written_by (late_rows bytes.now (length out.old)) (length bytes.now) }
    ensures out_after { out.new ≡ left_by (late_rows bytes.now (length out.old)) bytes.now out.old }
{
    if bad_nodes(bytes, chart) {
        return Err(Refusal::BadNodes);
    }
    if bad_constructs(bytes, chart) {
        return Err(Refusal::BadConstructs);
    }
    if bad_barriers(bytes, chart) {
        return Err(Refusal::BadBarriers);
    }
    let size = bytes.len();
    if out.len() < size {
        return Err(Refusal::NoRoom);
    }
    put_part(out, 0, bytes);
    Ok(size)
}

// The chart of a text that was read and has few enough nodes and constructs.
fn write_chart(
    text: &[u8],
    nodes: usize,
    constructs: usize,
    out: &mut [u8],
) -> Result<usize, Refusal>
    requires { ListedWithin text.now nodes constructs }
    ensures value { result ≡ listing_written text.now out.old }
    ensures out_after { out.new ≡ listing_left text.now out.old }
{
    let mut scratch = [0u8; Chart::SCRATCH_BYTES];
    let chart = draw(text, nodes, constructs, &mut scratch);
    let size = Node::BYTES * chart.nodes
        + Edge::BYTES * chart.edges
        + Construct::BYTES_1 * chart.constructs
        + Chart::TRAILER_BYTES;
    hand_over(&scratch[..size], chart, out)
}

// The chart that a listing means: its length, and its bytes in the buffer, or the first row that applies.
pub fn listing(text: &[u8], out: &mut [u8]) -> Result<usize, Refusal>
    ensures value { result ≡ listing_written text.now out.old }
    ensures out_after { out.new ≡ listing_left text.now out.old }
{
    let all = read_limited(text)?;
    write_chart(text, all.nodes, all.constructs, out)
}
