// Asks whether a chart would be admitted with one edge more (02, Note 6). Standard input has the edge, from and to, the chart's length in two bytes,
// little-endian, and the buffer that begins with the chart. Prints the receipt, or the number of the refusal.
#![tactic(auto)]

use call_edges::ask::ask;
use program_io::input;
use program_io::input::read_shorter;
use program_io::printing::print_refusal;
use std::io;
use theory_edits::Receipt;

// The longest input: two bytes for the edge, the length and the longest buffer.
const MOST: usize = 2 + input::LENGTH + input::MOST;

fn print_receipt(rt: &impl Print, receipt: Receipt) -> io::Result<()> {
    println!(rt; "length {} place {}", receipt.length, receipt.place)
}

fn print(rt: &impl Print, input: &[u8]) -> io::Result<()> {
    let [from, to, low, high, buffer @ ..] = input else {
        return println!(rt; "input too short");
    };
    let len = usize::from(u16::from_le_bytes([*low, *high]));
    match ask(buffer, len, usize::from(*from), usize::from(*to)) {
        Ok(receipt) => print_receipt(rt, receipt),
        Err(refusal) => print_refusal(rt, refusal),
    }
}

fn main(rt: HostRuntime) -> io::Result<()> {
    let mut buffer = [0u8; MOST + 1];
    match read_shorter(&rt, &mut buffer)? {
        Some(input) => print(&rt, input),
        None => println!(rt; "input too long"),
    }
}
