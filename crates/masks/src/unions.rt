// Sets by bit: for each bit a set as one word. A set is added to those of the bits of a mask, and those of the bits of a mask are united.
ghost use Rattle.std.specs.Prelude.{◌≡◌, length};
ghost use Rattle.masks.specs.Unions.{Added, Joined};

use crate::bits::lowest;

// The sets of all bits: a set of up to 64 members for each.
pub const BITS: usize = 64;

// The set is added to those of the bits of the mask, lowest first.
pub fn add(sets: &mut [u64; BITS], mask: u64, set: u64)
    requires { length sets.old ≡ 64 }
    ensures { Added sets.old mask set sets.new }
{
    let mut rest = mask;
    while rest != 0 {
        let b = lowest(rest);
        sets[b] |= set;
        rest &= rest - 1;
    }
}

// A set of up to 192 members.
#[derive(Clone, Copy)]
pub struct Words {
    pub low: u64,
    pub middle: u64,
    pub high: u64,
}

// The union of the sets of the bits of the mask, all three words in one pass.
pub fn join(mask: u64, low: &[u64; BITS], middle: &[u64; BITS], high: &[u64; BITS]) -> Words
    ensures joined { Joined mask low.now result.low }
    ensures joined_2 { Joined mask middle.now result.middle }
    ensures joined_3 { Joined mask high.now result.high }
{
    let mut union = Words {
        low: 0,
        middle: 0,
        high: 0,
    };
    let mut rest = mask;
    while rest != 0 {
        let k = lowest(rest);
        union.low |= low[k];
        union.middle |= middle[k];
        union.high |= high[k];
        rest &= rest - 1;
    }
    union
}
