// What is left where a chart is read for a parallel's region: the constructs that lie in it, and the nodes whose edges are its own.
ghost use Rattle.std.specs.Prelude.{◌≡◌, ◌≢◌, ◌&&◌, cond, eqb, get_or};
ghost use Rattle.chart.specs.Format.{outside, decode};
ghost use Rattle.mark_tables.specs.Tables.{Accepted, Within, Leaving};

use chart::format::{Chart, Construct, Node};

// 1 for the region's own parallel, and for what stands in a construct with a flag.
fn lies(c: usize, region: usize, parent: u8) -> u8
    ensures { result ≡ cond (eqb c region) 1 parent }
{
    if c == region { 1 } else { parent }
}

// The flags of the constructs, 1 or 0 as `Within` in specs/ has them: parents have lower numbers.
pub fn within(s: &[u8], chart: Chart, flags: &mut [u8; 256])
    requires { Accepted s.now chart × (chart.region ≢ outside) }
    ensures { Within (decode s.now) chart.region flags.new }
{
    *flags = [0u8; 256];
    let region = chart.region;
    for c in 0..chart.constructs {
        let parent = Construct::read(s, chart, c).parent;
        flags[c] = lies(c, region, flags[parent as usize]);
    }
}

// 1 for a node whose edges are the region's: one that lies in it, but for its end.
fn leaves(node: Node, region: usize, flags: &[u8; 256]) -> u8
    ensures { result ≡ cond (eqb node.kind 3 && eqb node.number region) 0 (get_or flags.now node.number 0) }
{
    let number = node.number as usize;
    if node.kind == Node::END && number == region {
        0
    } else {
        flags[number]
    }
}

// The flags of the nodes whose edges are the region's.
pub fn leaving(s: &[u8], chart: Chart, flags: &mut [u8; Chart::NODES])
    requires { Accepted s.now chart × (chart.region ≢ outside) }
    ensures { Leaving (decode s.now) chart.region flags.new }
{
    let mut places = [0u8; 256];
    within(s, chart, &mut places);
    *flags = [0u8; Chart::NODES];
    let region = chart.region;
    for x in 0..chart.nodes {
        flags[x] = leaves(Node::read(s, chart, x), region, &places);
    }
}
