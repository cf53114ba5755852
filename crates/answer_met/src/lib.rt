// Sets of nodes that races and needed locks are read off, three words each: the nodes that a node may meet, in finished runs and in any.
#![tactic(auto)]

ghost use Rattle.std.specs.Prelude.{◌≡◌, ◌&&◌, not, ℕ};
ghost use Rattle.lists.specs.Bits.{has};
ghost use Rattle.answer_nodes.specs.NodeSets.{OfSets};
ghost use Rattle.answer_met.specs.Meets.{unbarred, meets, NodeSet};

use answer_nodes::{NodeSets, sharing};
use answer_pairs::rules::Profile;
use masks::unions::Words;

// The members of a set that are not in another.
pub fn without(set: u64, other: u64) -> u64
    ensures { (j : ℕ) → has result j ≡ (has set j && not (has other j)) }
{
    set ^ (set & other)
}

// The nodes that a node with these masks may meet in some run, finished or not: those that no rule but "no common end" excludes.
pub fn unbarred_nodes(own: Profile, nodes: &NodeSets) -> Words
    ensures { OfSets nodes.now (λ closed marks. NodeSet closed (unbarred own marks) result) }
{
    let s = sharing(own.starts, &nodes.starts);
    let h = sharing(own.held, &nodes.held);
    Words {
        low: without(s.low, h.low),
        middle: without(s.middle, h.middle),
        high: without(s.high, h.high),
    }
}

// Those of them that it may meet in a finished run.
pub fn met_nodes(own: Profile, set: Words, nodes: &NodeSets) -> Words
    ensures { OfSets nodes.now (λ closed marks. NodeSet closed (unbarred own marks) set → NodeSet closed (meets own marks) result) }
{
    let e = sharing(own.ends, &nodes.ends);
    Words {
        low: set.low & e.low,
        middle: set.middle & e.middle,
        high: set.high & e.high,
    }
}
