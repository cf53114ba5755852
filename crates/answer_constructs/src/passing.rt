// Masks of the numbers that pass a test.
ghost use Rattle.std.specs.Prelude.{◌≡◌, Bool, ℕ, ◌^◌, ◌≤◌, ◌<◌};
ghost use Rattle.lists.specs.Mask.{mask_of};

use masks::bits::bit;

// The numbers below n that pass a test, which is told the lower ones that do.
pub fn passing<F: Fn(usize, u64) -> bool>(n: usize, test: F) -> u64
    requires few { n ≤ 64 }
    requires callable { (c m : ℕ) → c < n → m < 2 ^ 64 → F.pre test c m }
    ensures { (f : ℕ → Bool) → ((c : ℕ) (b : Bool) → c < n → F.post test c (mask_of f c) b → b ≡ f c) → result ≡ mask_of f n }
{
    let mut mask = 0;
    for c in 0..n {
        if test(c, mask) {
            mask |= bit(c);
        }
    }
    mask
}
