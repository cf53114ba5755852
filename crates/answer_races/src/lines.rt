// The lines that rows of races are filled from: for each node those that it may meet, and those of them that it has no name in common with. A set of nodes
// is three words, so that the lines of all nodes leave room on a small stack, where a byte for each two nodes would not.
ghost use Rattle.std.specs.Prelude.{◌≡◌, List, ℕ, ◌≤◌, ◌<◌, length, get_or};
ghost use Rattle.answer_pairs.specs.Rules.{profile_at};
ghost use Rattle.answer_nodes.specs.NodeSets.{ByBit, InSets, OfSets};
ghost use Rattle.answer_met.specs.Meets.{meets, NodeSet};
ghost use Rattle.answer_races.specs.Bytes.{line_at};
ghost use Rattle.answer_races.specs.Lines.{LineOf, MetOf, LineBy};

use crate::rows::Line;
use answer_constructs::mask_table::MaskTable;
use answer_met::{met_nodes, unbarred_nodes, without};
use answer_nodes::{BitSets, NodeSets};
use answer_pairs::rules::{Profile, profile_of};
use chart::format::Chart;
use masks::unions::{Words, join};

pub type Lines = [Line; Chart::NODES];

// The nodes that a node with these masks may meet.
#[derive(Clone, Copy)]
pub struct Kept {
    pub own: Profile,
    pub met: Words,
}

fn kept_of(own: Profile, nodes: &NodeSets) -> Kept
    ensures { (result.own ≡ own) × OfSets nodes.now (λ closed marks. NodeSet closed (meets own marks) result.met) }
{
    let set = unbarred_nodes(own, nodes);
    let met = met_nodes(own, set, nodes);
    Kept { own, met }
}

// Those that are kept, or those of a node with these masks, unless that is closed. Neighbours often have the same masks.
fn keep(own: Profile, closed: u8, kept: Kept, nodes: &NodeSets) -> Kept
    ensures { (closed ≡ 0 → result.own ≡ own) × OfSets nodes.now (λ shut marks. MetOf shut marks kept → MetOf shut marks result) }
{
    if closed != 0 || own == kept.own {
        kept
    } else {
        kept_of(own, nodes)
    }
}

// The line of a node that meets these and has these names around it.
fn line_of(met: Words, around: u64, named: &BitSets) -> Line
    ensures { LineBy met named.now around result }
{
    let shared = join(around, &named[0], &named[1], &named[2]);
    Line {
        meet: [met.low, met.middle, met.high],
        free: [
            without(met.low, shared.low),
            without(met.middle, shared.middle),
            without(met.high, shared.high),
        ],
    }
}

// The lines of the first n nodes; that of a closed one, which no access names, is any.
pub fn fill_lines(
    n: usize,
    marks: &MaskTable,
    names: &[u64; Chart::NODES],
    closed: &[u8; Chart::NODES],
    nodes: &NodeSets,
    named: &BitSets,
    lines: &mut Lines,
)
    requires { (n ≤ 192) × InSets closed.now marks.now nodes.now × ByBit closed.now names.now named.now × (length lines.old ≡ 192) }
    ensures { (a : ℕ) → a < n → get_or closed.now a 0 ≡ 0
        → LineOf closed.now marks.now names.now (profile_at marks.now a) (get_or names.now a 0) (line_at lines.new a) }
{
    let mut kept = kept_of(profile_of(0, marks), nodes);
    for a in 0..n {
        kept = keep(profile_of(a, marks), closed[a], kept, nodes);
        lines[a] = line_of(kept.met, names[a], named);
    }
}
