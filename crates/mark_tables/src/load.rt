// Stops, barriers, begins and ends, from the bytes of a chart that rows 1 to 9 of the refusals let pass.
ghost use Rattle.std.specs.Prelude.{◌≡◌, ◌&&◌, cond, ◌+◌, ◌≤◌, ◌<◌, eqb, leb};
ghost use Rattle.lists.specs.Range.{any, count};
ghost use Rattle.chart.specs.Format.{decode};
ghost use Rattle.chart.specs.Checked.{reading};
ghost use Rattle.check_nodes.specs.Framed.{BothFramed};
ghost use Rattle.mark_tables.specs.Tables.{Accepted, Stops, Barriers, Noted, has_stop, stop_from, Listing};

use chart::format::{Chart, Framing, Node};
use check_nodes::counts::bad_frames;

// The region by the byte that its nodes have for a number: on bytes alone the compiler takes several nodes at a time.
pub fn region_byte(chart: Chart) -> u8
    requires { chart.region < 256 }
    ensures { result ≡ chart.region }
{
    chart.region as u8
}

// 1 for a barrier of the region, its begin and its end among them, 0 for any other node.
pub fn stop(node: Node, region: u8) -> u8
    ensures { result ≡ cond (leb 1 node.kind && eqb node.number region) 1 0 }
{
    u8::from((node.kind != Node::PLAIN) & (node.number == region))
}

// A stop on each barrier.
pub fn load_stops(s: &[u8], chart: Chart, stops: &mut [u8; Chart::NODES])
    requires { Accepted s.now chart }
    ensures { Stops (reading s.now chart) stops.new }
{
    *stops = [0u8; Chart::NODES];
    let region = region_byte(chart);
    for x in 0..chart.nodes {
        stops[x] = stop(Node::read(s, chart, x), region);
    }
}

// One node more: where a stop stands on it, it is the next of the list.
fn note(stop: u8, x: usize, nodes: &mut [u8; Chart::BARRIERS], total: usize) -> usize
    requires { (x < 192) × (total ≤ 64) × ((stop ≡ 0 → ⊥) → total < 64) }
    ensures { Noted stop x nodes.old total nodes.new result }
{
    if stop == 0 {
        return total;
    }
    nodes[total] = x as u8;
    total + 1
}

// Whether a stop stands on one of the eight nodes from x on. No turn leaves the loop, so that all are asked at once.
fn any_stop(stops: &[u8; Chart::NODES], x: usize) -> bool
    requires { x + 8 ≤ 192 }
    ensures { result ≡ any 8 (stop_from stops.now x) }
{
    let mut found = 0u8;
    for stop in &stops[x..x + 8] {
        found |= *stop;
    }
    found != 0
}

// The eight nodes from `from` on, one by one.
fn list_eight(
    stops: &[u8; Chart::NODES],
    from: usize,
    nodes: &mut [u8; Chart::BARRIERS],
    before: usize,
) -> usize
    requires { (from + 8 ≤ 192) × (count 192 (has_stop stops.now) ≤ 64) × Listing stops.now from nodes.old before }
    ensures { Listing stops.now (from + 8) nodes.new result }
{
    let mut total = before;
    for k in 0..8 {
        total = note(stops[from + k], from + k, nodes, total);
    }
    total
}

// The list of the barriers, and how many there are. Eight nodes without a stop, as most are, are passed over at once; behind the last node
// no stop stands.
pub fn barriers(
    s: &[u8],
    chart: Chart,
    stops: &[u8; Chart::NODES],
    nodes: &mut [u8; Chart::BARRIERS],
) -> usize
    requires { Accepted s.now chart × Stops (reading s.now chart) stops.now }
    ensures { Barriers (reading s.now chart) nodes.new result }
{
    *nodes = [0u8; Chart::BARRIERS];
    let mut total = 0;
    // by eights: a step of `step_by` is a loop of steps by one
    for k in 0..Chart::NODES / 8 {
        let x = 8 * k;
        if any_stop(stops, x) {
            total = list_eight(stops, x, nodes, total);
        }
    }
    total
}

// For each construct its begin, and its end: row 7, which does not apply, finds them.
pub fn frames(s: &[u8], chart: Chart, framing: &mut Framing)
    requires { Accepted s.now chart }
    ensures { BothFramed (decode s.now) framing.new.begins framing.new.ends }
{
    bad_frames(s, chart, framing);
}
