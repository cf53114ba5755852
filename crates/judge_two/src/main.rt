// Two lists of claims against one chart, from standard input: a byte that names the region, the two lists, each after its length, and the chart. A line
// for each list's number, as Judge gives it, and one with the bytes of the part from the first false claim on.
#![tactic(auto)]

use call_judge::two::judge_two;
use chart::format::Chart;
use program_io::input;
use program_io::input::{read_shorter, split_list};
use std::io;

// The longest input: a byte for the region, both lists and the chart as long as they can be.
const MOST: usize = 1 + 2 * (input::LENGTH + input::MOST) + Chart::MOST_BYTES;

#[derive(Clone, Copy)]
struct Case<'a> {
    region: usize,
    first: &'a [u8],
    second: &'a [u8],
    chart: &'a [u8],
}

// What the input asks, if it has all of the lists.
fn read(input: &[u8]) -> Option<Case<'_>> {
    let (region, rest) = input.split_first()?;
    let (first, rest) = split_list(rest)?;
    let (second, chart) = split_list(rest)?;
    Some(Case {
        region: usize::from(*region),
        first,
        second,
        chart,
    })
}

fn print_judged(rt: &impl Print, case: Case) -> io::Result<()> {
    let mut first = 0i64;
    let mut second = 0i64;
    let part = judge_two(
        case.chart,
        case.region,
        case.first,
        case.second,
        &mut first,
        &mut second,
    );
    println!(rt; "first {first}")?;
    println!(rt; "second {second}")?;
    print!(rt; "part")?;
    for byte in part {
        print!(rt; " {byte}")?;
    }
    println!(rt)
}

fn print(rt: &impl Print, input: &[u8]) -> io::Result<()> {
    match read(input) {
        Some(case) => print_judged(rt, case),
        None => println!(rt; "input too short"),
    }
}

fn main(rt: HostRuntime) -> io::Result<()> {
    let mut buffer = [0u8; MOST + 1];
    match read_shorter(&rt, &mut buffer)? {
        Some(input) => print(&rt, input),
        None => println!(rt; "input too long"),
    }
}
