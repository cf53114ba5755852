// The entrance of the calls that need starts and ends: rows 1 to 10 and 23 of the refusals, and the masks of a region that none of them
// refuses, with the fewest edges from a barrier to each node that is none. Row 10 is asked of the outermost region, by its marking; a
// parallel's region is marked after that, and needs no row of its own.
ghost use Rattle.std.specs.Prelude.{◌≡◌, ℕ, replicate};
ghost use Rattle.mark_regions.specs.declared.outermost.Marked.{Marked};
ghost use Rattle.mark_regions.specs.Entered.{admitted_for, Entry};

use crate::inner::enter_inner;
use crate::outermost::{Marked, enter_outermost};
use chart::format::{Chart, Refusal};

// The first of rows 1 to 10 and 23 that applies, or the masks, which are 0 before, and levels of all nodes of the region.
pub fn enter(
    s: &[u8],
    region: usize,
    starts: &mut [u64; Chart::NODES],
    ends: &mut [u64; Chart::NODES],
    levels: &mut [u8; Chart::NODES],
) -> Result<Marked, Refusal>
    requires { (starts.old ≡ replicate 192 0) × (ends.old ≡ replicate 192 0) }
    ensures value { result ≡ admitted_for s.now region }
    ensures entry { (m : Marked) → result ≡ Ok m → Entry s.now m.chart m.barriers starts.new ends.new levels.new }
{
    let marked = enter_outermost(s, starts, ends, levels)?;
    if region == Chart::OUTERMOST {
        return Ok(marked);
    }
    enter_inner(s, marked.chart, region, starts, ends, levels)
}
