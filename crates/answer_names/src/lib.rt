// Names of criticals: for each node the criticals of the names around it, as a mask. Two nodes share a name where these share a bit. And the criticals
// around each node themselves.
#![tactic(auto)]

ghost use Rattle.std.specs.Prelude.{◌≡◌, ℕ, ◌≤◌, ◌<◌, length, get_or};
ghost use Rattle.lists.specs.Bits.{has as has_bit};
ghost use Rattle.lists.specs.Mask.{Mask, mask_of};
ghost use Rattle.chart.specs.Format.{decode};
ghost use Rattle.chart.specs.Nested.{counts_in};
ghost use Rattle.chart.specs.Checked.{reading};
ghost use Rattle.chart.proofs.RegionFacts.{Counts};
ghost use Rattle.chart.proofs.Tables.{lies};
ghost use Rattle.mark_tables.specs.Tables.{Accepted};
ghost use Rattle.answer_constructs.specs.Chains.{Known};
ghost use Rattle.answer_names.specs.Names.{GivesName, Given, Small, Chained, Spread, Names, OwnBits, Criticals, InCriticals};

use answer_constructs::chains::mask_at;
use answer_constructs::members::members_of;
use answer_constructs::passing::passing;
use answer_constructs::peers::noted_peers;
use answer_constructs::places::lay_out;
use chart::format::{Chart, Construct};
use masks::bits::{bit, has};
use masks::unions::BITS;

// A mask for each construct.
pub type Table = [u64; Chart::CONSTRUCTS];

// What construct c gives the nodes inside it, where `members` are the constructs of the region.
fn gives(s: &[u8], chart: Chart, c: usize, members: u64, known: &mut [u64; BITS]) -> u64
    requires { Accepted s.now chart × (c < chart.constructs)
        × (members ≡ mask_of (counts_in (decode s.now).constructs chart.region) chart.constructs)
        × Known (decode s.now).constructs known.old }
    ensures fact { let R = reading s.now chart in
        Mask (GivesName R (Counts (decode s.now) chart.region) c) R.constructs result }
    ensures known { Known (decode s.now).constructs known.new }
{
    if has(members, c) && Construct::read(s, chart, c).kind == Construct::CRITICAL {
        noted_peers(s, chart, c, known)
    } else {
        0
    }
}

// The same of every construct.
pub fn fill_given(s: &[u8], chart: Chart, given: &mut Table)
    requires { Accepted s.now chart × (length given.old ≡ 48) }
    ensures { Given (reading s.now chart) (Counts (decode s.now) chart.region) given.new }
{
    let members = members_of(s, chart);
    let mut known = [0u64; BITS];
    for c in 0..chart.constructs {
        given[c] = gives(s, chart, c, members, &mut known);
    }
}

// For each construct what it and those around it have in the table. A parent is lower, and so done.
fn fill_chains(s: &[u8], chart: Chart, given: &Table, chains: &mut Table)
    requires { Accepted s.now chart × Small (reading s.now chart) given.now × (length chains.old ≡ 48) }
    ensures { Chained (reading s.now chart) given.now chart.constructs chains.new }
{
    for c in 0..chart.constructs {
        let construct = Construct::read(s, chart, c);
        chains[c] = mask_at(chains, construct.parent) | given[c];
    }
}

// For each node what the constructs around it have.
pub fn spread(s: &[u8], chart: Chart, given: &Table, masks: &mut [u64; Chart::NODES])
    requires { Accepted s.now chart × Small (reading s.now chart) given.now × (length masks.old ≡ 192) }
    ensures { Spread (reading s.now chart) (lies (decode s.now)) given.now masks.old masks.new }
{
    let mut chains = [0u64; Chart::CONSTRUCTS];
    fill_chains(s, chart, given, &mut chains);
    lay_out(s, chart, &chains, 0, masks);
}

// A node has the names around the construct that it lies in.
pub fn fill_names(s: &[u8], chart: Chart, names: &mut [u64; Chart::NODES])
    requires { Accepted s.now chart × (length names.old ≡ 192) }
    ensures names { Names (reading s.now chart) names.new }
    ensures by_index { (x : ℕ) → chart.nodes ≤ x → get_or names.new x 0 ≡ get_or names.old x 0 }
{
    let mut given = [0u64; Chart::CONSTRUCTS];
    fill_given(s, chart, &mut given);
    spread(s, chart, &given, names);
}

// Of the masks of the first n constructs the bit of the construct itself, and all of these bits as one mask.
fn own_bits(n: usize, given: &Table, own: &mut Table) -> u64
    requires { (n ≤ 48) × (length own.old ≡ 48) }
    ensures value { result ≡ mask_of (λ c. has_bit (get_or given.now c 0) c) n }
    ensures own_bits { OwnBits n given.now own.new }
{
    for c in 0..n {
        own[c] = given[c] & bit(c);
    }
    passing(n, |c, _| has(given[c], c))
}

// The criticals of the region that each node is inside of. Returns all that there are: a critical of the region gives itself.
pub fn fill_around(s: &[u8], chart: Chart, given: &Table, around: &mut [u64; Chart::NODES]) -> u64
    requires { Accepted s.now chart × Given (reading s.now chart) (Counts (decode s.now) chart.region) given.now × (length around.old ≡ 192) }
    ensures criticals { Criticals (reading s.now chart) (Counts (decode s.now) chart.region) result }
    ensures in_criticals { InCriticals (reading s.now chart) around.new }
{
    let mut own = [0u64; Chart::CONSTRUCTS];
    let all = own_bits(chart.constructs, given, &mut own);
    spread(s, chart, &own, around);
    all
}
