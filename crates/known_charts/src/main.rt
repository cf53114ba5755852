// Runs the library over charts with known answers, whole and damaged, and writes a line for each, and one for each pair asked for: those
// spelt in standard input, then those at the limits.
#![tactic(auto)]

mod draft;
mod limits;
mod lines;
mod report;

use program_io::input::read_full;
use std::io;

fn main(rt: HostRuntime) -> io::Result<()> {
    let mut text = [0u8; 65536];
    let n = read_full(&rt, &mut text)?;
    lines::read_lines(&rt, &text[..n])?;
    limits::limits(&rt)
}
