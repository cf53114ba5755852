// What a node in each construct holds, as masks of constructs.
ghost use Rattle.std.specs.Prelude.{◌≡◌, cond, ◌+◌, ◌<◌, length};
ghost use Rattle.lists.specs.Bits.{has as has_bit};
ghost use Rattle.lists.specs.Mask.{Mask, mask_of};
ghost use Rattle.chart.specs.Format.{outside, decode, construct_at};
ghost use Rattle.chart.specs.Region.{master};
ghost use Rattle.chart.specs.Scope.{master_byte, ordered_byte, section_byte};
ghost use Rattle.chart.specs.Nested.{counts_in};
ghost use Rattle.chart.specs.Checked.{reading};
ghost use Rattle.chart.proofs.RegionFacts.{Counts};
ghost use Rattle.mark_tables.specs.Tables.{Accepted, Returned};
ghost use Rattle.answer_constructs.specs.Chains.{Gives, Chains, mask_at, own_mask};
ghost use Rattle.answer_constructs.specs.Marks.{OfKind};

use crate::members::members_of;
use crate::peers::masters_like;
use chart::format::{Chart, Construct};
use masks::bits::{bit, has};
use masks::unions::BITS;

// The mask of construct p, with no bit where p is none.
#[tactic(auto, unfolding(crate::specs::Chains::mask_at))]
pub fn mask_at(masks: &[u64; Chart::CONSTRUCTS], p: u8) -> u64
    requires { (p ≡ outside → ⊥) → p < 48 }
    ensures { result ≡ mask_at masks.now p }
{
    if p == Construct::NONE {
        0
    } else {
        masks[p as usize]
    }
}

// What a node holds for being inside construct c: a single and, for an ordered, its do, where they do not return; a section where its parent
// does not; for a master the masters for its thread, since that one goes into all of them. The bit is made before the kind is asked, which
// leaves less to a branch by the kind.
#[tactic(auto, unfolding(crate::specs::Chains::own_mask, crate::specs::Chains::lasting_bit))]
fn own(construct: Construct, c: usize, returning: u64, masters: u64) -> u64
    requires { (c < 48) × (construct.kind ≡ ordered_byte → construct.parent < 48) × (construct.kind ≡ section_byte → construct.parent < 48) }
    ensures { result ≡ own_mask construct.kind construct.parent c returning masters }
{
    let kind = construct.kind;
    let parent = construct.parent as usize % BITS;
    let given = if kind == Construct::ORDERED {
        parent
    } else {
        c
    };
    let asked = if kind == Construct::SINGLE { c } else { parent };
    let lasts = if has(returning, asked) { 0 } else { bit(given) };
    match kind {
        Construct::MASTER => masters,
        Construct::SINGLE | Construct::ORDERED | Construct::SECTION => lasts,
        _ => 0,
    }
}

// The same, where construct c is one of the region's; a deeper one gives nothing.
fn gives(construct: Construct, c: usize, members: u64, returning: u64, masters: u64) -> u64
    requires { (c < 48) × (construct.kind ≡ ordered_byte → construct.parent < 48) × (construct.kind ≡ section_byte → construct.parent < 48) }
    ensures { result ≡ cond (has_bit members c) (own_mask construct.kind construct.parent c returning masters) 0 }
{
    if has(members, c) {
        own(construct, c, returning, masters)
    } else {
        0
    }
}

// One construct more, given the masters for its thread if it is one. Its parent is lower, and so done.
fn add_construct(
    s: &[u8],
    chart: Chart,
    c: usize,
    members: u64,
    returning: u64,
    like: u64,
    held: &mut [u64; Chart::CONSTRUCTS],
)
    requires { Accepted s.now chart × (c < chart.constructs)
        × (members ≡ mask_of (counts_in (decode s.now).constructs chart.region) chart.constructs) × Returned (reading s.now chart) returning
        × ((construct_at (decode s.now).constructs c).kind ≡ master_byte → Mask (λ d. Gives (reading s.now chart) c d master) (reading s.now chart).constructs like)
        × Chains (reading s.now chart) (Counts (decode s.now) chart.region) c held.old }
    ensures { Chains (reading s.now chart) (Counts (decode s.now) chart.region) (c + 1) held.new }
{
    let construct = Construct::read(s, chart, c);
    let own = gives(construct, c, members, returning, like);
    held[c] = mask_at(held, construct.parent) | own;
}

// For each construct what a node that lies in it holds, given the constructs that return and the masters.
pub fn fill_chains(
    s: &[u8],
    chart: Chart,
    returning: u64,
    masters: u64,
    held: &mut [u64; Chart::CONSTRUCTS],
)
    requires { Accepted s.now chart × Returned (reading s.now chart) returning × OfKind (reading s.now chart) master masters × (length held.old ≡ 48) }
    ensures { Chains (reading s.now chart) (Counts (decode s.now) chart.region) chart.constructs held.new }
{
    let members = members_of(s, chart);
    let mut known = [0u64; BITS];
    for c in 0..chart.constructs {
        let like = masters_like(s, chart, c, masters, &mut known);
        add_construct(s, chart, c, members, returning, like, held);
    }
}
