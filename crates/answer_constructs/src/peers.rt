// Constructs that a rule takes together: those of one kind with the same number, as the masters for one thread.
ghost use Rattle.std.specs.Prelude.{◌≡◌, ◌&&◌, ◌<◌, eqb};
ghost use Rattle.lists.specs.Mask.{Mask, mask_of};
ghost use Rattle.chart.specs.Format.{decode, construct_at};
ghost use Rattle.chart.specs.Region.{master};
ghost use Rattle.chart.specs.Scope.{master_byte};
ghost use Rattle.chart.specs.Checked.{Laid, reading};
ghost use Rattle.mark_tables.specs.Tables.{Accepted};
ghost use Rattle.answer_constructs.specs.Chains.{Gives, is_like, like_mask, Known};
ghost use Rattle.answer_constructs.specs.Marks.{OfKind};

use crate::passing::passing;
use chart::format::{Chart, Construct};
use masks::unions::{BITS, add};

// Of one kind, with the same name and filter, whatever their parents, which `==` would compare too. Only criticals have names and only masters have
// filters: of each kind one number is compared. All three are compared at once, since on a chart that was not seen before none foretells the next.
fn alike(a: Construct, b: Construct) -> bool
    ensures { result ≡ (eqb a.kind b.kind && (eqb a.name b.name && eqb a.filter b.filter)) }
{
    (a.kind == b.kind) & ((a.name == b.name) & (a.filter == b.filter))
}

// The constructs like this one.
pub fn peers(s: &[u8], chart: Chart, construct: Construct) -> u64
    requires { Laid s.now chart }
    ensures { result ≡ mask_of (is_like (decode s.now).constructs construct.kind construct.name construct.filter) chart.constructs }
{
    passing(chart.constructs, |d, _| {
        alike(Construct::read(s, chart, d), construct)
    })
}

// The constructs like construct c. They are noted for each of them, so that one pass is made for all of them.
pub fn noted_peers(s: &[u8], chart: Chart, c: usize, known: &mut [u64; BITS]) -> u64
    requires { Laid s.now chart × (c < chart.constructs) × Known (decode s.now).constructs known.old }
    ensures { (result ≡ like_mask (decode s.now).constructs c) × Known (decode s.now).constructs known.new }
{
    // No Option: the places are a set by bit, which `add` writes, and no construct is unlike itself.
    let noted = known[c];
    if noted != 0 {
        return noted;
    }
    let same = peers(s, chart, Construct::read(s, chart, c));
    add(known, same, same);
    same
}

// The masters for the thread of construct c, where that is one: all of them in edition 1, which has no filters.
pub fn masters_like(s: &[u8], chart: Chart, c: usize, masters: u64, known: &mut [u64; BITS]) -> u64
    requires { Accepted s.now chart × (c < chart.constructs) × OfKind (reading s.now chart) master masters × Known (decode s.now).constructs known.old }
    ensures fact { let R = reading s.now chart in ((construct_at (decode s.now).constructs c).kind ≡ master_byte → Mask (λ d. Gives R c d master) R.constructs result) }
    ensures known { Known (decode s.now).constructs known.new }
{
    if chart.edition != Chart::EDITION_2 {
        return masters;
    }
    let construct = Construct::read(s, chart, c);
    if construct.kind != Construct::MASTER {
        return 0;
    }
    noted_peers(s, chart, c, known)
}
