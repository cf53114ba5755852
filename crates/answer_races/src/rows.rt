// A row of the bytes of all pairs of a list of accesses, from the line of its node: the nodes that it may meet, and those of them that it has no name in
// common with.
ghost use Rattle.std.specs.Prelude.{◌≡◌, ℕ, ◌+◌, ◌*◌, ◌≤◌, ◌<◌, length, get_or};
ghost use Rattle.lists.specs.Tab.{tab};
ghost use Rattle.theory_calls.specs.Access.{total, access_at};
ghost use Rattle.answer_races.specs.Linked.{Linked};
ghost use Rattle.answer_races.specs.Bytes.{line_race, by_line};
ghost use Rattle.answer_races.specs.Walked.{Walked};

use crate::same_variable::Links;
use answer_nodes::THIRDS;
use theory_calls::{Access, RaceByte};

// The nodes that a node may meet, and those of them that it has no name in common with: a word for each third of the nodes.
#[derive(Clone, Copy)]
pub struct Line {
    pub meet: [u64; THIRDS],
    pub free: [u64; THIRDS],
}

impl Line {
    pub const EMPTY: Line = Line {
        meet: [0; THIRDS],
        free: [0; THIRDS],
    };
}

// What the row's node is to node b: no race where they never meet, synchronization where they have a name in common, data where they have none. The numbers
// of these are how many of the two sets b is in.
fn race_at(line: &Line, b: usize) -> u8
    requires { b < 192 }
    ensures { result ≡ line_race line.now b }
{
    let meet = (line.meet[b / 64] >> (b % 64)) % 2;
    let free = (line.free[b / 64] >> (b % 64)) % 2;
    (meet + free) as u8
}

// The byte of the row's access with access k, where they may race.
fn race_of(accesses: &[u8], k: usize, line: &Line) -> u8
    requires { (4 * k + 3 < length accesses.now) × ((access_at accesses.now k).node < 192) }
    ensures { result ≡ line_race line.now (access_at accesses.now k).node }
{
    race_at(line, usize::from(accesses[Access::BYTES * k]))
}

// The bytes of the accesses that the links of access i lead to, two in each turn: the second link is read beside the first, so that no turn waits long
// for the one before it.
fn walk(accesses: &[u8], i: usize, links: &Links, line: &Line, out: &mut [u8])
    requires { Linked accesses.now (access_at accesses.now i).write 0 links.now
        × (length accesses.now ≤ 4096)
        × (i + length out.old ≡ total accesses.now)
        × (0 < length out.old)
        × ((j : ℕ) → (access_at accesses.now j).node < 192)
        × Walked (λ x. by_line line.now (access_at accesses.now i) (access_at accesses.now (i + x))) (total accesses.now) i (i + 1) out.old }
    ensures { let list = accesses.now in
        out.new ≡ tab (length out.old) (λ x. by_line line.now (access_at list i) (access_at list (i + x))) }
{
    let n = i + out.len();
    let mut j = i;
    let mut k = usize::from(links[i].first);
    while k < n {
        out[k - i] = race_of(accesses, k, line);
        let l = usize::from(links[j].second);
        if l >= n {
            return;
        }
        out[l - i] = race_of(accesses, l, line);
        j = l;
        k = usize::from(links[l].first);
    }
}

// Row i fills `out`, which is the row's part of the buffer and nothing else, from the line of its node: the bytes that no walk comes to stay as they were
// cleared. A read races with writes alone.
pub fn fill_row(accesses: &[u8], i: usize, all: &Links, writes: &Links, line: &Line, out: &mut [u8])
    requires { (Linked accesses.now 1 0 all.now × Linked accesses.now 0 0 writes.now)
        × (length accesses.now ≤ 4096)
        × (i + length out.old ≡ total accesses.now)
        × (0 < length out.old)
        × ((j : ℕ) → (access_at accesses.now j).node < 192)
        × ((access_at accesses.now i).write ≤ 1) }
    ensures { let list = accesses.now in
        out.new ≡ tab (length out.old) (λ x. by_line line.now (access_at list i) (access_at list (i + x))) }
{
    out.fill(RaceByte::NONE);
    if accesses[Access::BYTES * i + 1] == Access::READ {
        walk(accesses, i, writes, line, out);
        return;
    }
    out[0] = race_of(accesses, i, line);
    walk(accesses, i, all, line, out);
}
