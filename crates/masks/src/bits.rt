// Bits of a mask: the leaves that counts, searches and rules are made of.
ghost use Rattle.std.specs.Prelude.{◌≡◌, ◌^◌, ◌≤◌, ◌<◌};
ghost use Rattle.std.specs.Int.Count.{ones as count_ones};
ghost use Rattle.lists.specs.Bits.{has as has_bit};
ghost use Rattle.lists.specs.Lowest.{Lowest};
ghost use Rattle.lists.specs.Common.{common as common_bit};

// The number whose one bit is bit b.
pub fn bit(b: usize) -> u64
    requires { b < 64 }
    ensures { result ≡ 2 ^ b }
{
    1 << b
}

// Whether bit b of the mask is set.
pub fn has(mask: u64, b: usize) -> bool
    requires { b < 64 }
    ensures { result ≡ has_bit mask b }
{
    (mask >> b) % 2 == 1
}

// How many bits are set.
pub fn ones(mask: u64) -> usize
    ensures { (result ≡ count_ones mask) × (result ≤ 64) }
{
    mask.count_ones() as usize
}

// The place of the lowest bit.
pub fn lowest(mask: u64) -> usize
    requires { 0 < mask }
    ensures { Lowest mask result 64 }
{
    mask.trailing_zeros() as usize
}

// Whether two masks have a bit in common.
pub fn common(m: u64, n: u64) -> bool
    ensures { result ≡ common_bit m n }
{
    (m & n) != 0
}
