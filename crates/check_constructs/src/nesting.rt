// Row 6 of the refusals, over the constructs (each by itself: `alone`; below others: `enclosing`), and over the nodes (`stray`) where some construct is a sections.
ghost use Rattle.std.specs.Prelude.{◌≡◌, false, ◌||◌, ◌+◌, ◌<◌, length};
ghost use Rattle.lists.specs.Range.{any};
ghost use Rattle.chart.specs.Format.{decode};
ghost use Rattle.chart.specs.Nesting.{misnested, NestingTable};
ghost use Rattle.chart.specs.Refusal.{bad_alone, bad_constructs};
ghost use Rattle.chart.specs.Checked.{Laid};
ghost use Rattle.check_constructs.specs.Kinds.{KindsFrom, KindAt, NotedTo, BarredTable, PlaceTable};

use crate::alone::bad_construct;
use crate::enclosing::bad_above;
use crate::kinds::{barred_kinds, bit, within};
use crate::stray::stray_nodes;
use chart::format::{Chart, Construct};

// A place for each construct, and the last for none: its number, 255, is taken modulo this.
const PLACES: usize = 64;

// For each kind of construct the kinds that its parent may not be of, as bits, bit 0 for none and parallel. The parent of a section is a
// sections, that of nothing else is; that of an ordered is a do.
const MISPLACED: [u8; Construct::KINDS] = [
    0b01000000, 0b01000000, 0b01000000, 0b01000000, 0b11101111, 0b01000000, 0b10111111, 0b01000000,
];

// Row 6, of construct c, given that those below it are in order by themselves and are noted: `under` has the kinds above what stands in
// each, `own` its own kind. c is noted too. On a chart that passes, all tests come out the same but those below a critical, so that branches
// are predicted on one that was not seen before.
fn bad_at(
    s: &[u8],
    chart: Chart,
    c: usize,
    barred: &[u8; Construct::KINDS],
    misplaced: &[u8; Construct::KINDS],
    under: &mut [u8; PLACES],
    own: &mut [u8; PLACES],
) -> bool
    requires laid { Laid s.now chart × (c < chart.constructs) × (any c (bad_alone (decode s.now).constructs) ≡ false) }
    requires barred_table { BarredTable barred.now × PlaceTable misplaced.now }
    requires noted_to { NotedTo (KindsFrom (decode s.now).constructs) c under.old × NotedTo (KindAt (decode s.now).constructs) c own.old }
    ensures value { result ≡ (bad_alone (decode s.now).constructs c || misnested (decode s.now).constructs c) }
    ensures fact { let cs = (decode s.now).constructs in
        (result ≡ false → NotedTo (KindsFrom cs) (c + 1) under.new × NotedTo (KindAt cs) (c + 1) own.new) }
{
    let construct = Construct::read(s, chart, c);
    if bad_construct(construct, c) {
        return true;
    }
    let kind = construct.kind;
    let row = usize::from(kind) - 1;
    let up = usize::from(construct.parent) % PLACES;
    let above = under[up];
    let parent = own[up];
    under[c] = within(kind, above);
    own[c] = bit(kind);
    if parent & misplaced[row] != 0 {
        return true;
    }
    bad_above(s, chart, c, kind, above, barred[row])
}

// Row 6 of the constructs, by the nesting table. The constant array is bound before the loop, since each use of it is a copy.
fn bad_nesting(s: &[u8], chart: Chart, table: [[bool; Construct::KINDS]; Construct::KINDS]) -> bool
    requires { Laid s.now chart × NestingTable table }
    ensures { let cs = (decode s.now).constructs in
        result ≡ (any (length cs) (bad_alone cs) || any (length cs) (misnested cs)) }
{
    let barred = barred_kinds(&table);
    let misplaced = MISPLACED;
    let mut under = [0u8; PLACES];
    let mut own = [1u8; PLACES];
    // no `any`: each turn notes its construct for those above
    for c in 0..chart.constructs {
        if bad_at(s, chart, c, &barred, &misplaced, &mut under, &mut own) {
            return true;
        }
    }
    false
}

// Row 6. The nodes are looked at only where some construct is a sections.
pub fn bad_constructs(s: &[u8], chart: Chart) -> bool
    requires { Laid s.now chart }
    ensures { result ≡ bad_constructs (decode s.now) }
{
    bad_nesting(s, chart, Chart::NESTING)
        || Construct::occurs(s, chart, Construct::SECTIONS) && stray_nodes(s, chart)
}
