// The lines that the programs print, from what Phases and Sheet write.
ghost use Rattle.std.specs.Prelude.{◌≡◌, ◌+◌, ◌*◌, ◌≤◌, ◌<◌, get_or};

use chart::format::Chart;
use std::io;
use theory_answers::Answer;

// The most bytes that Phases writes, and that a sheet has.
pub const PHASES: usize = output::PHASES_NODE * Chart::NODES;

pub const SHEET: usize = Chart::NODES * Chart::NODES;

// A byte for each pair of a chart's nodes: a row for each node.
#[derive(Clone, Copy)]
pub struct PairBytes<'a> {
    pub bytes: &'a [u8; SHEET],
    pub nodes: usize,
    ghost room: { nodes ≤ 192 },
}

impl PairBytes<'_> {
    pub fn of(&self, a: usize, b: usize) -> u8
        requires { (a < self.now.nodes) × (b < self.now.nodes) }
        ensures { result ≡ get_or self.now.bytes.now (a * self.now.nodes + b) 0 }
    {
        self.bytes[a * self.nodes + b]
    }

    // Writes a line for each pair, the lower node first.
    pub fn each<F: Fn(usize, usize, u8) -> io::Result<()>>(&self, line: F) -> io::Result<()>
        requires { F.IsAlwaysCallable line }
    {
        for a in 0..self.nodes {
            for b in a..self.nodes {
                line(a, b, self.of(a, b))?;
            }
        }
        Ok(())
    }
}

// The mask of the eight bytes that begin at `at`, little-endian.
fn mask_at(masks: &[u8; PHASES], at: usize) -> u64
    requires { at + 8 ≤ 3072 }
{
    let mut bytes = [0; output::MASK];
    bytes.copy_from_slice(&masks[at..at + output::MASK]);
    u64::from_le_bytes(bytes)
}

// A line for each node that is no barrier.
pub fn nodes(rt: &impl Print, masks: &[u8; PHASES], answers: PairBytes) -> io::Result<()> {
    for x in 0..answers.nodes {
        if answers.of(x, x) != Answer::BARRIER {
            let starts = mask_at(masks, output::PHASES_NODE * x);
            let ends = mask_at(masks, output::PHASES_NODE * x + output::MASK);
            println!(rt; "node {x} starts {starts} ends {ends}")?;
        }
    }
    Ok(())
}

// A line for each pair of nodes, neither of which is a barrier.
pub fn pairs(rt: &impl Print, answers: PairBytes) -> io::Result<()> {
    answers.each(|a, b, answer| {
        if answer == Answer::BARRIER {
            Ok(())
        } else {
            println!(rt; "pair {a} {b} {answer}")
        }
    })
}
