// Levels as they are told, 0 for none, and masks that they tell.
ghost use Rattle.std.specs.Prelude.{◌≡◌, length};
ghost use Rattle.search.specs.Levels.{Each, Tells, Shows};

use crate::levels::NONE;
use chart::format::Chart;

pub fn tell(levels: &mut [u8; Chart::NODES])
    requires { length levels.old ≡ 192 }
    ensures { Each Tells levels.old levels.new }
{
    // every level is stored, so that no turn has a branch and many are taken at once
    for level in levels.iter_mut() {
        *level = if *level < NONE { *level } else { 0 };
    }
}

// The mask of each node where all paths begin at the first source: its bit where there is a level.
pub fn show(levels: &[u8; Chart::NODES], masks: &mut [u64; Chart::NODES])
    requires { length masks.old ≡ 192 }
    ensures { Each Shows levels.now masks.new }
{
    // by number: of tables that are written over a `zip` a proof learns nothing
    for y in 0..Chart::NODES {
        masks[y] = u64::from(levels[y] != 0);
    }
}
