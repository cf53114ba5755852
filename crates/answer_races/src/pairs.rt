// The bytes of all pairs of a list, row by row.
ghost use Rattle.std.specs.Prelude.{◌≡◌, ◌++◌, ℕ, ◌≤◌, ◌<◌, length, drop};
ghost use Rattle.lists.specs.Rows.{rows_by};
ghost use Rattle.lists.specs.Triangle.{pairs_from, pair_count};
ghost use Rattle.theory_calls.specs.Access.{total, access_at};
ghost use Rattle.answer_races.specs.PairsLines.{line_byte};

use crate::lines::Lines;
use crate::rows::fill_row;
use crate::same_variable::{NextTwo, PLACES, link};
use theory_calls::Access;

// All rows fill the front of `out`: row i is the part after the rows before it.
pub fn fill_races(accesses: &[u8], lines: &Lines, out: &mut [u8])
    requires { (length accesses.now ≤ 4096)
        × (pair_count (total accesses.now) ≤ length out.old)
        × ((j : ℕ) → ((access_at accesses.now j).node < 192) × ((access_at accesses.now j).write ≤ 1)) }
    ensures { let list = accesses.now in
        let result = rows_by (pairs_from (total list)) (line_byte lines.now list) (total list) in
        out.new ≡ result ++ drop (length result) out.old }
{
    let mut all = [NextTwo::UNKNOWN; PLACES];
    let mut writes = [NextTwo::UNKNOWN; PLACES];
    link(accesses, &mut all, &mut writes);
    let n = accesses.len() / Access::BYTES;
    let mut at = 0;
    for i in 0..n {
        let node = usize::from(accesses[Access::BYTES * i]);
        let end = at + (n - i);
        fill_row(accesses, i, &all, &writes, &lines[node], &mut out[at..end]);
        at = end;
    }
}
