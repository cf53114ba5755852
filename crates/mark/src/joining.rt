// Row 10 of the refusals: every node is reached from start and reaches finish, along edges. The masks of a search past no barrier tell
// it: first which barriers are joined to start (to finish), then whether some barrier leads to each other node.
// Of the barriers the masks forward tell both: taken the other way round they say from where finish is reached.
ghost use Rattle.std.specs.Prelude.{◌≡◌, true, false, not, cond, ℕ, ◌-◌, ◌^◌, ◌≤◌, ◌<◌, eqb, get_or};
ghost use Rattle.std.specs.Int.Bits.{bit_and, bit_or};
ghost use Rattle.lists.specs.Range.{count};
ghost use Rattle.lists.specs.Bits.{has as has_bit};
ghost use Rattle.theory_paths.specs.Phases.{Direction, forward, backward};
ghost use Rattle.mark.specs.Joined.{Told, JoinedTo, Passed, lost_barrier, FoundAlong};

use chart::format::Chart;
use masks::bits::{bit, has, ones};

// Barrier b is joined, where its mask has a barrier that is.
fn join(mask: u64, b: usize, all: u64) -> u64
    requires { b < 64 }
    ensures { result ≡ cond (eqb (bit_and mask all) 0) all (bit_or (2 ^ b) all) }
{
    if mask & all == 0 { all } else { bit(b) | all }
}

// Where barrier b is joined, so are those that its mask has.
fn join_with(mask: u64, b: usize, all: u64) -> u64
    requires { b < 64 }
    ensures { result ≡ cond (has_bit all b) (bit_or mask all) all }
{
    if has(all, b) { mask | all } else { all }
}

// The barriers are the first `total` of the whole list and no slice of it: `Barriers`, of which `FoundAlong` speaks, is of a list of 64.

// One pass over the barriers along the masks: from the first on, so that one will do for a chart in program order.
fn pass_along(
    masks: &[u64; Chart::NODES],
    nodes: &[u8; Chart::BARRIERS],
    total: usize,
    before: u64,
) -> u64
    requires total_bound { total ≤ 64 }
    requires by_index { (b : ℕ) → get_or nodes.now b 0 < 192 }
    ensures { Passed (Told false masks.now nodes.now total) (λ b c. b < total) before result }
{
    let mut all = before;
    for b in 0..total {
        all = join(masks[nodes[b] as usize], b, all);
    }
    all
}

// One pass against the masks, and so from the last on.
fn pass_against(
    masks: &[u64; Chart::NODES],
    nodes: &[u8; Chart::BARRIERS],
    total: usize,
    before: u64,
) -> u64
    requires total_bound { total ≤ 64 }
    requires by_index { (b : ℕ) → get_or nodes.now b 0 < 192 }
    ensures { Passed (Told true masks.now nodes.now total) (λ b c. c < total) before result }
{
    let mut all = before;
    for b in (0..total).rev() {
        all = join_with(masks[nodes[b] as usize], b, all);
    }
    all
}

// One pass, either way.
fn pass(
    masks: &[u64; Chart::NODES],
    nodes: &[u8; Chart::BARRIERS],
    total: usize,
    against: bool,
    before: u64,
) -> u64
    requires total_bound { total ≤ 64 }
    requires by_index { (b : ℕ) → get_or nodes.now b 0 < 192 }
    ensures { Passed (Told against masks.now nodes.now total) (λ b c. (b < total) × (c < total)) before result }
{
    if against {
        pass_against(masks, nodes, total, before)
    } else {
        pass_along(masks, nodes, total, before)
    }
}

// The barriers that are joined to the source: passes, until all are joined or one brings nothing more.
fn joined(
    masks: &[u64; Chart::NODES],
    nodes: &[u8; Chart::BARRIERS],
    total: usize,
    source: usize,
    against: bool,
) -> u64
    requires total_bound { (total ≤ 64) × (source < total) }
    requires by_index { (b : ℕ) → get_or nodes.now b 0 < 192 }
    ensures { JoinedTo (Told against masks.now nodes.now total) source total result }
{
    let mut all = bit(source);
    while ones(all) < total {
        let before = all;
        all = pass(masks, nodes, total, against, before);
        if all == before {
            return all;
        }
    }
    all
}

// Whether a barrier, other than the first, is not led to from there, by the masks of all nodes.
pub fn any_apart(masks: &[u64; Chart::NODES], nodes: &[u8; Chart::BARRIERS], total: usize) -> bool
    requires total_bound { (total ≤ 64) × (0 < total) }
    requires by_index { (b : ℕ) → get_or nodes.now b 0 < 192 }
    ensures { (d : Direction) → FoundAlong d nodes.now total masks.now (λ R. result ≡ lost_barrier d R 0) }
{
    ones(joined(masks, nodes, total, 0, false)) < total
}

// Whether a barrier, other than the last, does not lead there, by the masks of all nodes forward.
pub fn any_stuck(masks: &[u64; Chart::NODES], nodes: &[u8; Chart::BARRIERS], total: usize) -> bool
    requires total_bound { (total ≤ 64) × (0 < total) }
    requires by_index { (b : ℕ) → get_or nodes.now b 0 < 192 }
    ensures { FoundAlong forward nodes.now total masks.now (λ R. result ≡ lost_barrier backward R (total - 1)) }
{
    ones(joined(masks, nodes, total, total - 1, true)) < total
}

// Whether one of the first n nodes that is no barrier has a blank mask: those of the barriers are blank, and no other is if there are as many blank
// ones. No turn leaves the loop, so that several are taken at once.
pub fn any_missed(masks: &[u64; Chart::NODES], n: usize, barriers: usize) -> bool
    requires { n ≤ 192 }
    ensures { result ≡ not (eqb (count n (λ x. eqb (get_or masks.now x 0) 0)) barriers) }
{
    let mut found = 0;
    for mask in &masks[..n] {
        found += usize::from(*mask == 0);
    }
    found != barriers
}
