// The part of one of two lists from its first false claim on, by where the two fail.
ghost use Rattle.std.specs.Prelude.{◌≡◌, ℕ, ◌*◌, ◌≤◌, length, drop};
ghost use Rattle.call_judge.specs.Two.{failed_at, part_of, placed, place_of};

use chart::format::Refusal;

// A list from a claim on.
fn part_from(claims: &[u8], index: usize) -> &[u8]
    requires { 2 * index ≤ length claims.now }
    ensures { (result.now ≡ drop (2 * index) claims.now) × (result.ref_ptr ≡ placed claims.entry.ref_ptr (2 * index)) }
{
    let start = 2 * index;
    &claims[start..]
}

// Where a list fails: one that passes, or is refused, does not.
pub fn failed_at(verdict: Result<Option<usize>, Refusal>) -> Option<usize>
    ensures { result ≡ failed_at verdict }
{
    match verdict {
        Ok(failed) => failed,
        Err(_) => None,
    }
}

// Where both fail, the part of the one that fails earlier, of the first on a tie; where neither fails, none of the first.
pub fn false_part<'a>(
    x: &'a [u8],
    y: &'a [u8],
    first: Option<usize>,
    second: Option<usize>,
) -> &'a [u8]
    requires by_index { (i : ℕ) → first ≡ Some i → 2 * i ≤ length x.now }
    requires by_index_2 { (j : ℕ) → second ≡ Some j → 2 * j ≤ length y.now }
    ensures { (result.now ≡ part_of first second x.now y.now) × (result.ref_ptr ≡ place_of first second x.entry.ref_ptr y.entry.ref_ptr) }
{
    match (first, second) {
        (Some(i), Some(j)) => {
            if j < i {
                part_from(y, j)
            } else {
                part_from(x, i)
            }
        }
        (Some(i), None) => part_from(x, i),
        (None, Some(j)) => part_from(y, j),
        (None, None) => &x[0..0],
    }
}
