// The nodes that a claim may not name: the barriers of the region, and what lies outside it.
ghost use Rattle.std.specs.Prelude.{◌≡◌, ◌≢◌, ◌&&◌, cond, ◌<◌, eqb, leb, get_or};
ghost use Rattle.chart.specs.Format.{outside};
ghost use Rattle.chart.specs.Checked.{reading};
ghost use Rattle.theory_answers.specs.Numbers.{asked};
ghost use Rattle.mark_tables.specs.Tables.{Accepted, Closed};

use crate::cut::within;
use crate::load::{load_stops, region_byte, stop};
use chart::format::{Chart, Node};

// 1 for a node whose number has no flag, and for a barrier.
fn shut(node: Node, region: u8, flags: &[u8; 256]) -> u8
    ensures { result ≡ cond (eqb (get_or flags.now node.number 0) 0) 1 (cond (leb 1 node.kind && eqb node.number region) 1 0) }
{
    if flags[node.number as usize] == 0 {
        1
    } else {
        stop(node, region)
    }
}

// A flag on each of them, of a parallel's region.
fn close_region(s: &[u8], chart: Chart, closed: &mut [u8; Chart::NODES])
    requires { Accepted s.now chart × (chart.region ≢ outside) }
    ensures { Closed (reading s.now chart) closed.new }
{
    let mut places = [0u8; 256];
    within(s, chart, &mut places);
    *closed = [0u8; Chart::NODES];
    let region = region_byte(chart);
    for x in 0..chart.nodes {
        closed[x] = shut(Node::read(s, chart, x), region, &places);
    }
}

// The same of any region: nothing lies outside the outermost one.
pub fn load_closed(s: &[u8], chart: Chart, closed: &mut [u8; Chart::NODES])
    requires { Accepted s.now chart }
    ensures { Closed (reading s.now chart) closed.new }
{
    if chart.region == Chart::OUTERMOST {
        load_stops(s, chart, closed);
    } else {
        close_region(s, chart, closed);
    }
}

// The flag of one node.
pub fn closed_at(s: &[u8], chart: Chart, x: usize) -> u8
    requires { Accepted s.now chart × (x < chart.nodes) }
    ensures { result ≡ cond (asked (reading s.now chart) x) 0 1 }
{
    let node = Node::read(s, chart, x);
    let region = region_byte(chart);
    if chart.region == Chart::OUTERMOST {
        return stop(node, region);
    }
    let mut places = [0u8; 256];
    within(s, chart, &mut places);
    shut(node, region, &places)
}
