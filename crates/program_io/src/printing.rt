// The printing program of 01: a chart from standard input, its counts, the starts and ends of its nodes and the answers of its pairs on
// standard output. Programs that run it on stored input are crates of their own.

ghost use Rattle.std.specs.Prelude.{◌≤◌};

use crate::input::read_shorter;
use crate::lines;
use crate::lines::PairBytes;
use call_admit::admit::admit;
use call_phases::writing::phases;
use call_sheet::sheet;
use chart::format::{Chart, Refusal};
use std::io;
use theory_answers::Size;
use theory_calls::Counts;

pub fn print_refusal(rt: &impl Print, refusal: Refusal) -> io::Result<()> {
    println!(rt; "refused {}", u8::from(refusal))
}

// The lines of an admitted chart: those of its outermost region.
fn print_admitted(rt: &impl Print, s: &[u8], counts: Counts) -> io::Result<()>
    requires { counts.nodes ≤ 192 }
{
    let mut masks = [0u8; lines::PHASES];
    let mut answers = [0u8; lines::SHEET];
    let _ = phases(s, Chart::OUTERMOST, &mut masks);
    let _ = sheet(s, Chart::OUTERMOST, Size::Any, &mut answers);
    println!(rt;
        "chart {} nodes {} barriers {} phases",
        counts.nodes, counts.barriers, counts.phases
    )?;
    let answers = PairBytes {
        bytes: &answers,
        nodes: counts.nodes,
    };
    lines::nodes(rt, &masks, answers)?;
    lines::pairs(rt, answers)
}

// What the program prints for these bytes.
pub fn print(rt: &impl Print, s: &[u8]) -> io::Result<()> {
    match admit(s) {
        Ok(counts) => print_admitted(rt, s, counts),
        Err(refusal) => print_refusal(rt, refusal),
    }
}

// Standard input is read to one byte past the longest chart; what is longer is refused by its length.
pub fn run(rt: &(impl Input + Print)) -> io::Result<()> {
    let mut buffer = [0u8; Chart::MOST_BYTES + 1];
    match read_shorter(rt, &mut buffer)? {
        Some(s) => print(rt, s),
        None => print_refusal(rt, Refusal::BadLengths),
    }
}
