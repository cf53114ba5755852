// Charts at the limits and one past them, too long to be spelt.
use crate::draft::Draft;
use crate::report::report;
use chart::format::{Chart, Construct, Node};
use std::io;

// A node with its number, or a construct with its parent.
fn put_record(draft: &mut Draft, kind: u8, number: u8) {
    draft.put(kind);
    draft.put(number);
    draft.put_field(0);
}

fn put_edge(draft: &mut Draft, from: u32, to: u32) {
    draft.put((from % 256) as u8);
    draft.put((to % 256) as u8);
}

// What is written again and again, for the k-th time.

fn plain(draft: &mut Draft, _k: u16) {
    put_record(draft, Node::PLAIN, Construct::NONE);
}

fn barrier(draft: &mut Draft, _k: u16) {
    put_record(draft, Node::BARRIER, Construct::NONE);
}

// A barrier of the region of parallel 0.
fn inner(draft: &mut Draft, _k: u16) {
    put_record(draft, Node::BARRIER, 0);
}

// The begin and the end of construct k.
fn begin_end(draft: &mut Draft, k: u16) {
    let number = (k % 256) as u8;
    put_record(draft, Node::BEGIN, number);
    put_record(draft, Node::END, number);
}

fn critical(draft: &mut Draft, _k: u16) {
    put_record(draft, Construct::CRITICAL, Construct::NONE);
}

// A masked of edition 2 for thread k.
fn masked(draft: &mut Draft, k: u16) {
    put_record(draft, Construct::MASTER, Construct::NONE);
    draft.put_field(usize::from(k));
}

// The edge from k to k + 1.
fn step(draft: &mut Draft, k: u16) {
    let from = u32::from(k);
    put_edge(draft, from, from + 1);
}

// Edge k of all those from the first 32 nodes to nodes 1 to 32.
fn grid(draft: &mut Draft, k: u16) {
    let k = u32::from(k);
    put_edge(draft, k / 32, k % 32 + 1);
}

// Edge k of the longest chart: the grid as far as node 26, and from node 27 on a row.
fn longest(draft: &mut Draft, k: u16) {
    if k < 860 {
        grid(draft, k);
    } else {
        step(draft, k - 833);
    }
}

fn repeat<F: Fn(&mut Draft, u16)>(draft: &mut Draft, put: F, times: u16)
    requires { F.IsAlwaysCallable put }
{
    for k in 0..times {
        put(draft, k);
    }
}

// A line for a chart that lacks its trailer.
fn finish(rt: &impl Print, name: &str, mut draft: Draft) -> io::Result<()> {
    draft.put_trailer();
    print!(rt; "{name}")?;
    report(rt, draft.chart())
}

// A line for the chart with so many of these nodes between Start and Finish, of these edges and of criticals.
fn generate<N: Fn(&mut Draft, u16), E: Fn(&mut Draft, u16)>(
    rt: &impl Print,
    name: &str,
    node: N,
    nodes: u16,
    edge: E,
    edges: u16,
    criticals: u16,
) -> io::Result<()>
    requires node { N.IsAlwaysCallable node }
    requires edge { E.IsAlwaysCallable edge }
{
    let mut draft = Draft::new();
    barrier(&mut draft, 0);
    repeat(&mut draft, node, nodes);
    barrier(&mut draft, 0);
    draft.end_nodes();
    repeat(&mut draft, edge, edges);
    draft.end_edges();
    repeat(&mut draft, critical, criticals);
    finish(rt, name, draft)
}

// A line for a chart with so many barriers between the begin and the end of parallel 0, and so many edges in a row.
fn generate_region(rt: &impl Print, name: &str, barriers: u16, edges: u16) -> io::Result<()> {
    let mut draft = Draft::new();
    barrier(&mut draft, 0);
    put_record(&mut draft, Node::BEGIN, 0);
    repeat(&mut draft, inner, barriers);
    put_record(&mut draft, Node::END, 0);
    barrier(&mut draft, 0);
    draft.end_nodes();
    repeat(&mut draft, step, edges);
    draft.end_edges();
    put_record(&mut draft, Construct::PARALLEL, Construct::NONE);
    finish(rt, name, draft)
}

// A line for a chart of edition 2 at all limits: 94 plain nodes and 48 masked constructs, each with its begin and its end.
fn generate_longest(rt: &impl Print, name: &str) -> io::Result<()> {
    let mut draft = Draft::new();
    draft.edition = Chart::EDITION_2;
    barrier(&mut draft, 0);
    repeat(&mut draft, plain, 94);
    repeat(&mut draft, begin_end, 48);
    barrier(&mut draft, 0);
    draft.end_nodes();
    repeat(&mut draft, longest, 1024);
    draft.end_edges();
    repeat(&mut draft, masked, 48);
    finish(rt, name, draft)
}

pub fn limits(rt: &impl Print) -> io::Result<()> {
    generate(rt, "nodes-192", plain, 190, step, 191, 0)?;
    generate(rt, "nodes-193", plain, 191, step, 192, 0)?;
    generate(rt, "edges-1024", plain, 31, grid, 1024, 0)?;
    generate(rt, "edges-1025", plain, 31, grid, 1025, 0)?;
    generate(rt, "constructs-48", begin_end, 48, step, 97, 48)?;
    generate(rt, "constructs-49", begin_end, 49, step, 99, 49)?;
    generate(rt, "barriers-64", barrier, 62, step, 63, 0)?;
    generate(rt, "barriers-65", barrier, 63, step, 64, 0)?;
    generate_region(rt, "region-barriers-64", 62, 65)?;
    generate_region(rt, "region-barriers-65", 63, 66)?;
    generate_longest(rt, "bytes-3120")
}
