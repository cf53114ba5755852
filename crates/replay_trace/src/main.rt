// A trace against a chart, from standard input: a byte that names the region, one with the size of the team, the trace after its length, and the chart.
// A line with what the replay says, then one for each thread and one for each pair of nodes met.
#![tactic(auto)]

mod lines;
mod threads;

use call_replay::run::run;
use chart::format::Chart;
use program_io::input;
use program_io::input::{read_shorter, split_list};
use program_io::lines::{PairBytes, SHEET};
use program_io::printing::print_refusal;
use std::io;

// The longest input: two bytes for the region and the size of the team, trace and chart as long as they can be.
const MOST: usize = 2 + input::LENGTH + input::MOST + Chart::MOST_BYTES;

#[derive(Clone, Copy)]
struct Case<'a> {
    region: usize,
    team: usize,
    trace: &'a [u8],
    chart: &'a [u8],
}

// What the input asks, if it has all of the trace.
fn read(input: &[u8]) -> Option<Case<'_>> {
    let [region, team, rest @ ..] = input else {
        return None;
    };
    let (trace, chart) = split_list(rest)?;
    Some(Case {
        region: usize::from(*region),
        team: usize::from(*team),
        trace,
        chart,
    })
}

fn print_replayed(rt: &impl Print, case: Case) -> io::Result<()> {
    let mut out = [0u8; SHEET];
    let team = run(case.chart, case.region, case.trace, case.team, &mut out);
    match team.answer {
        Ok(said) => lines::outcome(rt, said)?,
        Err(refusal) => return print_refusal(rt, refusal),
    }
    threads::all(rt, team)?;
    match lines::nodes_of(case.chart) {
        Some(nodes) => lines::met(rt, PairBytes { bytes: &out, nodes }),
        None => Ok(()),
    }
}

fn print(rt: &impl Print, input: &[u8]) -> io::Result<()> {
    match read(input) {
        Some(case) => print_replayed(rt, case),
        None => println!(rt; "input too short"),
    }
}

fn main(rt: HostRuntime) -> io::Result<()> {
    let mut buffer = [0u8; MOST + 1];
    match read_shorter(&rt, &mut buffer)? {
        Some(input) => print(&rt, input),
        None => println!(rt; "input too long"),
    }
}
