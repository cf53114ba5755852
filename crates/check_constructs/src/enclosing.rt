// Row 6 of the refusals, of a construct and those above it in its region.
ghost use Rattle.std.specs.Prelude.{◌≡◌, false, ◌+◌, ◌<◌, length};
ghost use Rattle.lists.specs.Mask.{mask_of};
ghost use Rattle.lists.specs.Range.{any};
ghost use Rattle.chart.specs.Format.{decode, construct_at};
ghost use Rattle.chart.specs.Scope.{critical_byte, parent_of};
ghost use Rattle.chart.specs.Nesting.{excluded, wrongly_above};
ghost use Rattle.chart.specs.Refusal.{bad_alone};
ghost use Rattle.chart.specs.Checked.{Laid};
ghost use Rattle.check_constructs.specs.Kinds.{KindsFrom, barred_by};

use crate::kinds::bit;
use chart::format::{Chart, Construct};

// Whether `outer` may not stand above a critical of this name.
fn same_name(name: usize, outer: Construct) -> bool
    ensures { result ≡ excluded critical_byte name outer.kind outer.name }
{
    outer.kind == Construct::CRITICAL && name == outer.name
}

// Whether some construct above the critical c in its region may not stand there. The walk upwards stops at the first parallel, where nesting
// starts anew; parents are lower, so it ends.
fn same_above(s: &[u8], chart: Chart, c: usize) -> bool
    requires laid { Laid s.now chart × (c < chart.constructs) × (any (c + 1) (bad_alone (decode s.now).constructs) ≡ false) }
    requires c_value { (construct_at (decode s.now).constructs c).kind ≡ critical_byte }
    ensures { result ≡ any (length (decode s.now).constructs) (wrongly_above (decode s.now).constructs c) }
{
    let inner = Construct::read(s, chart, c);
    let mut p = inner.parent;
    while p != Construct::NONE {
        let outer = Construct::read(s, chart, usize::from(p));
        if outer.kind == Construct::PARALLEL {
            return false;
        }
        if same_name(inner.name, outer) {
            return true;
        }
        p = outer.parent;
    }
    false
}

// Whether some construct above c in its region may not stand there, by the kinds that do and those that may not. Only a critical with a
// critical above it is asked by name.
pub fn bad_above(s: &[u8], chart: Chart, c: usize, kind: u8, above: u8, barred: u8) -> bool
    requires laid { Laid s.now chart × (c < chart.constructs) × (any (c + 1) (bad_alone (decode s.now).constructs) ≡ false) }
    requires kind_value { (kind ≡ (construct_at (decode s.now).constructs c).kind) × (barred ≡ mask_of (barred_by kind) 8) }
    requires kinds_from { KindsFrom (decode s.now).constructs (parent_of (decode s.now).constructs c) above }
    ensures { result ≡ any (length (decode s.now).constructs) (wrongly_above (decode s.now).constructs c) }
{
    if above & barred != 0 {
        return true;
    }
    if above & bit(Construct::CRITICAL) == 0 {
        return false;
    }
    if kind != Construct::CRITICAL {
        return false;
    }
    same_above(s, chart, c)
}
