// The printing program on the chart of a listing (02, Note 2), which is read from standard input: the lines of its chart, or the refusal.
#![tactic(auto)]

use call_listing::drawing::listing;
use chart::format::Chart;
use program_io::input;
use program_io::input::read_shorter;
use program_io::printing::{print, print_refusal};
use std::io;

fn show(rt: &impl Print, text: &[u8]) -> io::Result<()> {
    let mut chart = [0u8; Chart::MOST_BYTES];
    match listing(text, &mut chart) {
        Err(refusal) => print_refusal(rt, refusal),
        Ok(size) => print(rt, &chart[..size]),
    }
}

fn main(rt: HostRuntime) -> io::Result<()> {
    let mut buffer = [0u8; input::MOST + 1];
    match read_shorter(&rt, &mut buffer)? {
        Some(text) => show(&rt, text),
        None => println!(rt; "input too long"),
    }
}
