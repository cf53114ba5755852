// The row of a node, from sets of nodes: for each bit of a mask the nodes that have it.
ghost use Rattle.std.specs.Prelude.{◌≡◌, true, ◌||◌, cond, ℕ, ◌<◌, eqb, length, get_or};
ghost use Rattle.lists.specs.Bits.{has};
ghost use Rattle.answer_pairs.specs.Rules.{by_rules, by_size};
ghost use Rattle.answer_nodes.specs.NodeSets.{OfSets};
ghost use Rattle.answer_sheet.specs.Eights.{Spread, Fence, digit};
ghost use Rattle.answer_sheet.specs.Sheet.{RowIs, PhaseOnly, PhaseRow, RuleSets};

use crate::eights::{BYTES, Planes, WORDS, put_phase, put_word};
use answer_constructs::kinds::{RULES, Sets};
use answer_nodes::{NodeSets, sharing};
use answer_pairs::rules::Profile;
use chart::format::Chart;
use masks::bits::common;
use masks::unions::Words;

// A set of 64 nodes that has them all.
const ALL: u64 = 0xffff_ffff_ffff_ffff;

// A digit of a number for these nodes.
fn part(nodes: u64, digit: usize) -> u64
    ensures { result ≡ cond (eqb digit 0) 0 nodes }
{
    if digit == 0 { 0 } else { nodes }
}

// The nodes of a set, which had none so far, get this number.
fn give(p: Planes, nodes: u64, number: usize) -> Planes
    requires { number < 8 }
    ensures { (j : ℕ) → (has nodes j ≡ true → digit p j ≡ 0) → digit result j ≡ cond (has nodes j) number (digit p j) }
{
    Planes {
        odd: p.odd | part(nodes, number % 2),
        twos: p.twos | part(nodes, number / 2 % 2),
        fours: p.fours | part(nodes, number / 4),
        ..p
    }
}

// The first rule of 64 nodes, by the nodes of each rule: those with a common phase go from rule to rule.
fn planes(both: u64, rules: &[u64; RULES]) -> Planes
    ensures { (j : ℕ) → digit result j ≡ by_rules (has both j) (λ k. has (get_or rules.now k 0) j) }
{
    let mut p = Planes {
        both,
        odd: 0,
        twos: 0,
        fours: 0,
    };
    let mut left = both;
    for k in 0..RULES {
        let hit = left & rules[k];
        p = give(p, hit, k + 2);
        left ^= hit;
    }
    p
}

// Ahead of it, of a known size: the team has one thread; it lacks one that the row's node needs; or it lacks one that these nodes need.
fn ahead(p: Planes, alone: bool, lacks: bool, lacking: u64) -> Planes
    ensures { (j : ℕ) → j < 64 → digit result j ≡ by_size alone (lacks || has lacking j) (digit p j) }
{
    if alone {
        return Planes {
            both: ALL,
            odd: 0,
            twos: ALL,
            fours: ALL,
        };
    }
    if lacks {
        return Planes {
            both: ALL,
            odd: ALL,
            twos: ALL,
            fours: ALL,
        };
    }
    Planes {
        both: lacking | p.both,
        odd: lacking | p.odd,
        twos: lacking | p.twos,
        fours: lacking | p.fours,
    }
}

// For each rule from rule 2 on the nodes that it excludes from a node that holds this, 64 nodes at a time.
fn fill_rules(
    held: u64,
    sets: Sets,
    nodes: &NodeSets,
    low: &mut [u64; RULES],
    middle: &mut [u64; RULES],
    high: &mut [u64; RULES],
)
    requires { (length low.old ≡ 4) × (length middle.old ≡ 4) × (length high.old ≡ 4) }
    ensures { OfSets nodes.now (λ closed marks. RuleSets closed marks.held held sets.kinds low.new middle.new high.new) }
{
    let kinds = sets.kinds;
    for k in 0..RULES {
        let words = sharing(held & kinds[k], &nodes.held);
        low[k] = words.low;
        middle[k] = words.middle;
        high[k] = words.high;
    }
}

// Most nodes hold no construct. To these only the first rule can apply, unless the team has one thread or lacks one that other nodes need.
fn phase_only(held: u64, sets: Sets) -> bool
    ensures { result ≡ true → PhaseOnly sets held }
{
    !sets.alone && (held | sets.missing) == 0
}

// The row of such a node, from the nodes that share a start with it and those that share an end: no set of a kind of construct is joined.
fn work_phase_row(
    starts: Words,
    ends: Words,
    fence: &[u64; WORDS],
    spread: &[u64; BYTES],
    last: &mut [u8; Chart::NODES],
)
    requires { Spread spread.now × (length last.old ≡ 192) }
    ensures { (length last.new ≡ 192) × PhaseRow starts ends fence.now last.new }
{
    put_phase(starts.low & ends.low, 0, fence, spread, last);
    put_phase(starts.middle & ends.middle, 1, fence, spread, last);
    put_phase(starts.high & ends.high, 2, fence, spread, last);
}

// The row of a node that has these masks and that a claim may name.
pub fn work_row(
    own: Profile,
    sets: Sets,
    nodes: &NodeSets,
    fence: &[u64; WORDS],
    spread: &[u64; BYTES],
    last: &mut [u8; Chart::NODES],
)
    requires { Spread spread.now × (length last.old ≡ 192) }
    ensures { (length last.new ≡ 192) × OfSets nodes.now (λ closed marks. Fence closed fence.now → RowIs closed sets marks own last.new) }
{
    let s = sharing(own.starts, &nodes.starts);
    let e = sharing(own.ends, &nodes.ends);
    if phase_only(own.held, sets) {
        work_phase_row(s, e, fence, spread, last);
        return;
    }
    let mut low = [0u64; RULES];
    let mut middle = [0u64; RULES];
    let mut high = [0u64; RULES];
    fill_rules(own.held, sets, nodes, &mut low, &mut middle, &mut high);
    let z = sharing(sets.missing, &nodes.held);
    let lacks = common(own.held, sets.missing);
    let first = ahead(planes(s.low & e.low, &low), sets.alone, lacks, z.low);
    put_word(first, 0, fence, spread, last);
    let second = ahead(
        planes(s.middle & e.middle, &middle),
        sets.alone,
        lacks,
        z.middle,
    );
    put_word(second, 1, fence, spread, last);
    let third = ahead(planes(s.high & e.high, &high), sets.alone, lacks, z.high);
    put_word(third, 2, fence, spread, last);
}

// The scratch row is that of the masks `kept`, and becomes that of a node unless no claim may name it. Neighbours often have the same masks,
// and then it is there already. Returns the masks whose row it is.
pub fn keep_row(
    own: Profile,
    closed: u8,
    kept: Profile,
    sets: Sets,
    nodes: &NodeSets,
    fence: &[u64; WORDS],
    spread: &[u64; BYTES],
    last: &mut [u8; Chart::NODES],
) -> Profile
    requires { Spread spread.now × (length last.old ≡ 192) }
    ensures { (length last.new ≡ 192)
        × (closed ≡ 0 → result ≡ own)
        × OfSets nodes.now (λ shut marks. Fence shut fence.now → RowIs shut sets marks kept last.old → RowIs shut sets marks result last.new) }
{
    if closed != 0 || own == kept {
        return kept;
    }
    work_row(own, sets, nodes, fence, spread, last);
    own
}
