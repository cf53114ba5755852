// What the library answers for a chart and for pairs of its nodes, as text.
use call_admit::admit::admit;
use call_pair::pair::pair;
use chart::format::{Construct, Refusal};
use std::io;
use theory_answers::Size;
use theory_calls::Counts;

fn print_counts(rt: &impl Print, counts: Counts) -> io::Result<()> {
    println!(rt;
        " admitted {} nodes {} barriers {} phases",
        counts.nodes, counts.barriers, counts.phases
    )
}

fn print_refusal(rt: &impl Print, refusal: Refusal) -> io::Result<()> {
    println!(rt; " refused {}", u8::from(refusal))
}

// The rest of the line for a chart.
pub fn report(rt: &impl Print, s: &[u8]) -> io::Result<()> {
    match admit(s) {
        Ok(counts) => print_counts(rt, counts),
        Err(refusal) => print_refusal(rt, refusal),
    }
}

// A line for a pair of nodes of a chart, in a region, for teams of a size.
pub fn report_pair(
    rt: &impl Print,
    s: &[u8],
    region: u8,
    size: Size,
    a: u8,
    b: u8,
) -> io::Result<()> {
    print!(rt; "  pair {a} {b}")?;
    if region != Construct::NONE {
        print!(rt; " in region {region}")?;
    }
    if let Size::Of(threads) = size {
        print!(rt; " in a team of {threads}")?;
    }
    match pair(s, usize::from(region), size, usize::from(a), usize::from(b)) {
        Ok(answer) => println!(rt; " answered {}", answer.number),
        Err(refusal) => print_refusal(rt, refusal),
    }
}
