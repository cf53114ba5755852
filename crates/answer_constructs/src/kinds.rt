// The constructs of the kinds that the rules ask for.
ghost use Rattle.std.specs.Prelude.{◌≡◌};
ghost use Rattle.lists.specs.Mask.{mask_of};
ghost use Rattle.chart.specs.Format.{decode};
ghost use Rattle.chart.specs.Checked.{Laid, reading};
ghost use Rattle.mark_tables.specs.Tables.{Accepted};
ghost use Rattle.answer_constructs.specs.Chains.{is_of};
ghost use Rattle.answer_constructs.specs.Marks.{Kinds};

use crate::passing::passing;
use chart::format::{Chart, Construct};

// The rules from rule 2 on, each of which asks for a construct of its kind that both nodes hold.
pub const RULES: usize = 4;

// The constructs of each rule's kind, in the order of the rules.
pub type KindTable = [u64; RULES];

const KINDS: [u8; RULES] = [
    Construct::MASTER,
    Construct::SINGLE,
    Construct::DO,
    Construct::SECTION,
];

// What the rules read of a region beside its nodes: the constructs of their kinds and, of a team of a known size, whether it has but one thread,
// and the masters for a thread that it lacks.
#[derive(Clone, Copy)]
pub struct Sets {
    pub kinds: KindTable,
    pub alone: bool,
    pub missing: u64,
}

fn of_kind(s: &[u8], chart: Chart, kind: u8) -> u64
    requires { Laid s.now chart }
    ensures { result ≡ mask_of (is_of (decode s.now).constructs kind) chart.constructs }
{
    passing(chart.constructs, |c, _| {
        Construct::read(s, chart, c).kind == kind
    })
}

pub fn kinds_of(s: &[u8], chart: Chart) -> KindTable
    requires { Accepted s.now chart }
    ensures { Kinds (reading s.now chart) result }
{
    let mut kinds = [0u64; RULES];
    for k in 0..RULES {
        kinds[k] = of_kind(s, chart, KINDS[k]);
    }
    kinds
}
