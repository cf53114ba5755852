// The criticals that some pair of nodes needs: one inside the critical, and one inside a critical of its name that it may meet.
ghost use Rattle.std.specs.Prelude.{◌≡◌, true, false, ◌&&◌, List, ℕ, ◌≤◌, ◌<◌};
ghost use Rattle.lists.specs.Bits.{has};
ghost use Rattle.answer_nodes.specs.NodeSets.{ByBit, InSets};
ghost use Rattle.answer_locks.specs.Search.{has_named, Skips, Kept, Tries, Searched};

use answer_constructs::mask_table::MaskTable;
use answer_met::{met_nodes, unbarred_nodes};
use answer_nodes::{BitSets, NodeSets};
use answer_pairs::rules::{Profile, profile_of};
use chart::format::Chart;
use masks::bits::{bit, common, lowest};
use masks::unions::Words;

// Whether a node of the set has bit c of the names.
#[tactic(auto, unfolding(crate::specs::Search::has_named))]
fn has_named(set: Words, c: usize, named: &BitSets) -> bool
    requires { c < 64 }
    ensures { result ≡ has_named set named.now c }
{
    common(set.low, named[0][c]) || common(set.middle, named[1][c]) || common(set.high, named[2][c])
}

// The bits of the mask that some node of the set has, lowest first.
fn needing(mask: u64, set: Words, named: &BitSets) -> u64
    ensures { (c : ℕ) → has result c ≡ (has mask c && has_named set named.now c) }
{
    let mut found = 0;
    let mut rest = mask;
    while rest != 0 {
        let c = lowest(rest);
        if has_named(set, c, named) {
            found |= bit(c);
        }
        rest &= rest - 1;
    }
    found
}

// The criticals that the nodes tried need, in finished runs and in some run at all, with the masks of the last node and the criticals around it.
#[derive(Clone, Copy)]
pub struct Tried {
    pub own: Profile,
    pub around: u64,
    pub ever: u64,
    pub needed: u64,
}

// Whether a node adds nothing: it is closed or in no critical, or it has the masks of the last one tried, as neighbours often have.
fn skips(own: Profile, closed: u8, around: u64, last: Tried) -> bool
    ensures { (result ≡ true → Skips closed own around last) × (result ≡ false → closed ≡ 0) }
{
    closed != 0 || around == 0 || around == last.around && own == last.own
}

// One node more, with these masks and these criticals around it.
fn try_node(
    own: Profile,
    closed: u8,
    around: u64,
    last: Tried,
    nodes: &NodeSets,
    named: &BitSets,
) -> Tried
    ensures { (shut : List ℕ) (marks : MaskTable) (names : List ℕ) → InSets shut marks nodes.now → ByBit shut names named.now
        → Kept shut marks names last → Tries shut marks names closed own around last result }
{
    if skips(own, closed, around, last) {
        return last;
    }
    let set = unbarred_nodes(own, nodes);
    let ever = needing(around, set, named);
    let met = met_nodes(own, set, nodes);
    let needed = needing(ever, met, named);
    Tried {
        own,
        around,
        ever: last.ever | ever,
        needed: last.needed | needed,
    }
}

pub fn search(
    n: usize,
    marks: &MaskTable,
    around: &[u64; Chart::NODES],
    closed: &[u8; Chart::NODES],
    nodes: &NodeSets,
    named: &BitSets,
) -> Tried
    requires { (n ≤ 192) × InSets closed.now marks.now nodes.now }
    ensures { (names : List ℕ) → ByBit closed.now names named.now
        → Searched closed.now marks.now names around.now n result }
{
    let mut tried = Tried {
        own: profile_of(0, marks),
        around: 0,
        ever: 0,
        needed: 0,
    };
    for x in 0..n {
        tried = try_node(
            profile_of(x, marks),
            closed[x],
            around[x],
            tried,
            nodes,
            named,
        );
    }
    tried
}
