// The constructs of the region that a chart is read for.
ghost use Rattle.std.specs.Prelude.{◌≡◌, ◌<◌};
ghost use Rattle.lists.specs.Mask.{mask_of};
ghost use Rattle.chart.specs.Format.{outside, decode};
ghost use Rattle.chart.specs.Nested.{counts_in};
ghost use Rattle.mark_tables.specs.Tables.{Accepted};
ghost use Rattle.answer_constructs.specs.Chains.{is_member};

use crate::passing::passing;
use chart::format::{Chart, Construct};
use masks::bits::has;

// Whether a construct is one of the region, given those of lower numbers that are: no parallel, and directly in the region or in one of them.
#[tactic(auto, unfolding(crate::specs::Chains::is_member))]
fn is_member(construct: Construct, region: usize, members: u64) -> bool
    requires { (construct.parent ≡ outside → ⊥) → construct.parent < 48 }
    ensures { result ≡ is_member construct.kind construct.parent region members }
{
    let parent = construct.parent as usize;
    construct.kind != Construct::PARALLEL
        && (parent == region || (construct.parent != Construct::NONE && has(members, parent)))
}

pub fn members_of(s: &[u8], chart: Chart) -> u64
    requires { Accepted s.now chart }
    ensures { result ≡ mask_of (counts_in (decode s.now).constructs chart.region) chart.constructs }
{
    passing(chart.constructs, |c, members| {
        is_member(Construct::read(s, chart, c), chart.region, members)
    })
}
