// Bytes written eight at a time from sets of bits: a byte of a set becomes a word that has a byte for each of its bits, by a table.
ghost use Rattle.std.specs.Prelude.{◌≡◌, cond, ℕ, ◌+◌, ◌*◌, ◌-◌, ◌/◌, ◌%◌, ◌^◌, ◌≤◌, ◌<◌, eqb, length, get_or};
ghost use Rattle.answer_sheet.specs.Fan.{fan};
ghost use Rattle.answer_sheet.specs.Eights.{Spread, Fence, digit, PutBytes, PutNumbers, Plain};

use chart::format::Chart;

pub const BYTES: usize = 256;

// One word has a byte for each of eight nodes.
pub const WORDS: usize = 64;

const EACH: u64 = 0x0101_0101_0101_0101;

const ALL: u64 = 255;

// For every byte the word whose byte k is its bit k.
pub fn fill_spread(table: &mut [u64; BYTES])
    ensures { Spread table.new }
{
    *table = [0u64; BYTES];
    for b in 1..BYTES {
        table[b] = 256 * table[b / 2] + (b % 2) as u64;
    }
}

// A number below 8 for each of 64 nodes: 1 where the first set has no bit, and the bits of the number in the other sets.
#[derive(Clone, Copy)]
pub struct Planes {
    pub both: u64,
    pub odd: u64,
    pub twos: u64,
    pub fours: u64,
}

// Byte i of a set, spread.
fn spread(set: u64, i: usize, table: &[u64; BYTES]) -> u64
    requires { (i < 8) × Spread table.now }
    ensures { (result ≡ fan (λ k. set / 2 ^ (8 * i + k) % 2) 8) × (result ≤ 72340172838076673) }
{
    let byte = ((set >> (8 * i)) % 256) as usize;
    table[byte]
}

// Eight numbers, from number 8 * i on. Where `rest` says so, those of the three other sets are not looked at.
fn eight(p: Planes, rest: u64, i: usize, table: &[u64; BYTES]) -> u64
    requires { (i < 8) × Spread table.now × (rest ≡ 0 → Plain p) }
    ensures { result ≡ fan (λ k. digit p (8 * i + k)) 8 }
{
    let ones = EACH - spread(p.both, i, table);
    if rest == 0 {
        return ones;
    }
    ones + spread(p.odd, i, table) + 2 * spread(p.twos, i, table) + 4 * spread(p.fours, i, table)
}

// The bytes of a word, lowest first.
fn put(word: u64, at: usize, row: &mut [u8; Chart::NODES])
    requires { (length row.old ≡ 192) × (at + 8 ≤ 192) }
    ensures { PutBytes word at row.old row.new }
{
    row[at..at + 8].copy_from_slice(&word.to_le_bytes());
}

// Entries 64 * w to 64 * w + 63 of a row, those of closed nodes covered.
pub fn put_word(
    p: Planes,
    w: usize,
    fence: &[u64; WORDS],
    table: &[u64; BYTES],
    row: &mut [u8; Chart::NODES],
)
    requires { (w < 3) × Spread table.now × (length row.old ≡ 192) }
    ensures { PutNumbers (digit p) w fence.now row.old row.new }
{
    let rest = p.odd | p.twos | p.fours;
    for i in 0..8 {
        put(
            eight(p, rest, i, table) | fence[8 * w + i],
            64 * w + 8 * i,
            row,
        );
    }
}

// Such entries by one set alone: 1 where it has no bit. Most rows are of this kind, and no planes are made for them.
pub fn put_phase(
    both: u64,
    w: usize,
    fence: &[u64; WORDS],
    table: &[u64; BYTES],
    row: &mut [u8; Chart::NODES],
)
    requires { (w < 3) × Spread table.now × (length row.old ≡ 192) }
    ensures { PutNumbers (λ j. 1 - both / 2 ^ j % 2) w fence.now row.old row.new }
{
    for i in 0..8 {
        put(
            (EACH - spread(both, i, table)) | fence[8 * w + i],
            64 * w + 8 * i,
            row,
        );
    }
}

// The byte that covers an entry: all bits where the node is closed.
fn cover(closed: u8) -> u64
    ensures { (result ≡ cond (eqb closed 0) 0 255) × (result ≤ 255) }
{
    if closed == 0 { 0 } else { ALL }
}

// Eight covers, from node `at` on.
fn pack(closed: &[u8; Chart::NODES], at: usize) -> u64
    requires { at + 8 ≤ 192 }
    ensures { result ≡ fan (λ i. cond (eqb (get_or closed.now (at + i) 0) 0) 0 255) 8 }
{
    let mut word = 0;
    for i in (0..8).rev() {
        word = 256 * word + cover(closed[at + i]);
    }
    word
}

// The covers of all nodes.
pub fn fill_fence(closed: &[u8; Chart::NODES], fence: &mut [u64; WORDS])
    ensures { Fence closed.now fence.new }
{
    *fence = [0u64; WORDS];
    for k in 0..24 {
        fence[k] = pack(closed, 8 * k);
    }
}
