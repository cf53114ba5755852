// What the replay says, and the pairs met.
ghost use Rattle.std.specs.Prelude.{◌≤◌, IfSome};

use call_replay::pairs_met::Rows;
use chart::format::Chart;
use program_io::lines::PairBytes;
use std::io;
use theory_traces::Replayed;

pub fn outcome(rt: &impl Print, said: Replayed) -> io::Result<()> {
    match said {
        Replayed::Finished => println!(rt; "finished"),
        Replayed::Unfinished => println!(rt; "unfinished"),
        Replayed::Forbidden(index) => println!(rt; "forbidden {index}"),
    }
}

// How many nodes a chart has; bytes that are none have no number.
pub fn nodes_of(s: &[u8]) -> Option<usize>
    ensures { IfSome result (λ n. n ≤ 192) }
{
    if s.len() < Chart::TRAILER_BYTES {
        return None;
    }
    let n = Chart::read(s).nodes;
    if n <= Chart::NODES { Some(n) } else { None }
}

// A line for each pair that is met, the lower node first.
pub fn met(rt: &impl Print, pairs: PairBytes) -> io::Result<()> {
    pairs.each(|a, b, byte| {
        if byte == Rows::MET {
            println!(rt; "met {a} {b}")
        } else {
            Ok(())
        }
    })
}
