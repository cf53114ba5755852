// Accesses of one variable: from each the next that it may race with, so that a walk over them misses none and passes over all others.
ghost use Rattle.std.specs.Prelude.{◌≡◌, ℕ, ◌+◌, ◌*◌, ◌≤◌, ◌<◌, length, get_or};
ghost use Rattle.theory_calls.specs.Access.{total, access_at};
ghost use Rattle.answer_races.specs.Linked.{FirstFrom, Same, Beside, Chained, Linked, linked_to};

use theory_calls::Access;

// Variables with the same remainder by this lie in one bucket. It is a prime, so that variables which have either byte in common seldom do.
const BUCKETS: usize = 1021;

// The place of no access.
const NONE: u16 = Access::MOST as u16;

// The places of the two accesses after one. They are numbers of 16 bits with one for none, since an Option of each would make the tables twice as large.
#[derive(Clone, Copy)]
pub struct NextTwo {
    pub first: u16,
    pub second: u16,
}

impl NextTwo {
    pub const UNKNOWN: NextTwo = NextTwo {
        first: 0,
        second: 0,
    };
}

// For each place, that of no access among them.
pub type Links = [NextTwo; PLACES];

pub const PLACES: usize = Access::MOST + 1;

// The variable of access i.
fn variable_at(accesses: &[u8], i: usize) -> usize
    requires { 4 * i + 3 < length accesses.now }
    ensures { result ≡ (access_at accesses.now i).variable }
{
    let at = Access::BYTES * i;
    usize::from(u16::from_le_bytes([accesses[at + 2], accesses[at + 3]]))
}

// For each access the place of the next of its bucket, from the last access on to the first.
fn chain(accesses: &[u8], under: &mut [u16; Access::MOST])
    requires { (length accesses.now ≤ 4096) × (length under.old ≡ 1024) }
    ensures { Chained accesses.now under.new }
{
    let mut heads = [NONE; BUCKETS];
    for i in (0..accesses.len() / Access::BYTES).rev() {
        let bucket = variable_at(accesses, i) % BUCKETS;
        under[i] = heads[bucket];
        heads[bucket] = i as u16;
    }
}

// The next access of the variable of access i, which lies in its bucket.
fn next_of(accesses: &[u8], i: usize, under: &[u16; Access::MOST]) -> usize
    requires { Chained accesses.now under.now × (length accesses.now ≤ 4096) × (i < total accesses.now) }
    ensures { let list = accesses.now in
        FirstFrom (Same list (access_at list i).variable) (total list) (i + 1) result × (result ≤ 1024) }
{
    let n = accesses.len() / Access::BYTES;
    let variable = variable_at(accesses, i);
    let mut k = usize::from(under[i]);
    while k < n {
        if variable_at(accesses, k) == variable {
            return k;
        }
        k = usize::from(under[k]);
    }
    Access::MOST
}

// The next write of a variable, where k is the next access of it.
fn write_from(accesses: &[u8], k: usize, writes: &Links) -> usize
    requires { length accesses.now ≤ 4096 }
    ensures { let list = accesses.now in
        ((i : ℕ) → i < total list → FirstFrom (Same list (access_at list i).variable) (total list) (i + 1) k → k ≤ 1024 → Linked list 0 (i + 1) writes.now
        → FirstFrom (Beside list 0 (access_at list i).variable) (total list) (i + 1) result × (result ≤ 1024)) }
{
    if k >= accesses.len() / Access::BYTES {
        return Access::MOST;
    }
    if accesses[Access::BYTES * k + 1] != Access::READ {
        return k;
    }
    usize::from(writes[k].first)
}

// The place after j, and with it the one after that.
fn put(links: &mut Links, j: usize, k: usize)
    requires { (length links.old ≡ 1025) × (j < 1024) × (k ≤ 1024) }
    ensures { links.new ≡ linked_to links.old j k }
{
    links[j] = NextTwo {
        first: k as u16,
        second: links[k].first,
    };
}

// From each access the next two of its variable, and the next two writes.
pub fn link(accesses: &[u8], all: &mut Links, writes: &mut Links)
    requires { (length accesses.now ≤ 4096) × (length all.old ≡ 1025) × (length writes.old ≡ 1025) }
    ensures { Linked accesses.now 1 0 all.new × Linked accesses.now 0 0 writes.new }
{
    let mut under = [0u16; Access::MOST];
    chain(accesses, &mut under);
    for i in (0..accesses.len() / Access::BYTES).rev() {
        let k = next_of(accesses, i, &under);
        put(all, i, k);
        let w = write_from(accesses, k, writes);
        put(writes, i, w);
    }
}
