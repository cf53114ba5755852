// Reading a listing (02, Note 2): its counts, or the refusal that is met first from the left. A block calls for items and an item for blocks;
// the braces that may still be open and the bytes left fall.
ghost use Rattle.std.specs.Prelude.{◌≡◌, ℕ, ◌≤◌, ◌<◌, ◌+◌, ◌-◌, length};
ghost use Rattle.theory_listing.specs.Grammar.{letter_kind, block_of, listed};
ghost use Rattle.call_listing.specs.Extent.{extent_of, with_more, closed_at, barrier_after, followed_at, braced_extent, item_extent, limited_to, Within, Beyond, Fits};

use crate::letters;
use chart::format::{Chart, Construct, Refusal};

// How far reading came: the place after what was read, its nodes and its constructs.
#[derive(Clone, Copy)]
pub struct Extent {
    pub next: usize,
    pub nodes: usize,
    pub constructs: usize,
}

impl Extent {
    // How many braces may be open.
    pub const DEPTH: usize = 16;
    // How many nodes a chart has room for beside Start and Finish.
    pub const NODES: usize = Chart::NODES - 2;
}

// The kind of construct that a letter stands for.
pub fn letter_kind(letter: u8) -> u8
    ensures { result ≡ letter_kind letter }
{
    if letter == letters::SINGLE {
        return Construct::SINGLE;
    }
    if letter == letters::MASTER {
        return Construct::MASTER;
    }
    if letter == letters::CRITICAL {
        return Construct::CRITICAL;
    }
    if letter == letters::DO {
        return Construct::DO;
    }
    if letter == letters::ORDERED {
        return Construct::ORDERED;
    }
    Construct::NO_KIND
}

// The closing brace after a block.
fn closed(s: &[u8], block: Extent) -> Result<Extent, Refusal>
    ensures { result ≡ closed_at s.now block }
{
    if s.len() <= block.next {
        return Err(Refusal::BadGrammar);
    }
    if s[block.next] == letters::CLOSE {
        Ok(Extent {
            next: block.next + 1,
            ..block
        })
    } else {
        Err(Refusal::BadGrammar)
    }
}

// What was read, with some nodes and constructs more.
fn added(read: Extent, nodes: usize, constructs: usize) -> Extent
    requires { Fits nodes constructs read }
    ensures { result ≡ with_more nodes constructs read }
{
    Extent {
        next: read.next,
        nodes: read.nodes + nodes,
        constructs: read.constructs + constructs,
    }
}

// A construct that a barrier follows, unless n stands after its brace.
fn with_barrier(s: &[u8], block: Extent) -> Extent
    requires { Fits 3 1 block }
    ensures { result ≡ barrier_after s.now block }
{
    if s.len() <= block.next {
        return added(block, 3, 1);
    }
    if s[block.next] == letters::NOWAIT {
        return Extent {
            next: block.next + 1,
            nodes: block.nodes + 2,
            constructs: block.constructs + 1,
        };
    }
    added(block, 3, 1)
}

// A construct around a block that was read: its begin and its end, and the barrier after a single and a do.
fn followed(s: &[u8], kind: u8, block: Extent) -> Extent
    requires { Fits 3 1 block }
    ensures { result ≡ followed_at s.now kind block }
{
    if kind == Construct::SINGLE {
        return with_barrier(s, block);
    }
    if kind == Construct::DO {
        return with_barrier(s, block);
    }
    added(block, 2, 1)
}

// A block in braces, where `depth` more braces may be open. This and `block` are inlined into `item`: at a call, what was read is copied through
// memory.
#[inline(always)]
#[cycle(reader)]
pub fn braced(s: &[u8], at: usize, depth: usize) -> Result<Extent, Refusal>
    ensures within { Within (at + 2) (length s.now) result }
    ensures by_index { (fuel : ℕ) → length s.now - at < fuel → result ≡ braced_extent fuel s.now depth at }
{
    if s.len() <= at {
        return Err(Refusal::BadGrammar);
    }
    if s[at] != letters::OPEN {
        return Err(Refusal::BadGrammar);
    }
    if depth == 0 {
        return Err(Refusal::TooDeep);
    }
    let inner = block(s, at + 1, depth - 1)?;
    closed(s, inner)
}

// An item.
#[cycle(reader)]
pub fn item(s: &[u8], at: usize, depth: usize) -> Result<Extent, Refusal>
    requires { at < length s.now }
    ensures within { Within at (length s.now) result × Beyond at result }
    ensures by_index { (fuel : ℕ) → length s.now - at ≤ fuel → result ≡ item_extent fuel s.now depth at }
{
    let letter = s[at];
    if letter == letters::PLAIN || letter == letters::BARRIER {
        return Ok(Extent {
            next: at + 1,
            nodes: 1,
            constructs: 0,
        });
    }
    if letter == letters::LOOP {
        let body = braced(s, at + 1, depth)?;
        return Ok(added(body, 1, 0));
    }
    if letter == letters::BRANCH {
        let one = braced(s, at + 1, depth)?;
        let other = braced(s, one.next, depth)?;
        return Ok(added(other, one.nodes + 2, one.constructs));
    }
    let kind = letter_kind(letter);
    if kind == Construct::NO_KIND {
        return Err(Refusal::BadGrammar);
    }
    let inner = braced(s, at + 1, depth)?;
    Ok(followed(s, kind, inner))
}

// Items up to a closing brace or the end, inlined as `braced` is.
#[inline(always)]
#[cycle(reader)]
pub fn block(s: &[u8], at: usize, depth: usize) -> Result<Extent, Refusal>
    requires { at ≤ length s.now }
    ensures within { Within at (length s.now) result }
    ensures by_index { (fuel : ℕ) → length s.now - at < fuel → result ≡ extent_of (block_of fuel s.now depth at) }
{
    let mut here = at;
    let mut nodes: usize = 0;
    let mut constructs: usize = 0;
    while here < s.len() {
        if s[here] == letters::CLOSE {
            return Ok(Extent {
                next: here,
                nodes,
                constructs,
            });
        }
        let one = item(s, here, depth)?;
        here = one.next;
        nodes += one.nodes;
        constructs += one.constructs;
    }
    Ok(Extent {
        next: here,
        nodes,
        constructs,
    })
}

// The whole listing: 14 or 15, the first met from the left, or its counts.
pub fn read(s: &[u8]) -> Result<Extent, Refusal>
    ensures { result ≡ extent_of (listed s.now) }
{
    let all = block(s, 0, Extent::DEPTH)?;
    if all.next == s.len() {
        Ok(all)
    } else {
        Err(Refusal::BadGrammar)
    }
}

// The whole listing, where 16 comes after 14 and 15. Nodes and constructs alone decide it: a listing with few enough nodes has few enough edges.
pub fn read_limited(s: &[u8]) -> Result<Extent, Refusal>
    ensures { result ≡ limited_to (listed s.now) }
{
    let all = read(s)?;
    if Extent::NODES < all.nodes {
        return Err(Refusal::TooLarge);
    }
    if Chart::CONSTRUCTS < all.constructs {
        return Err(Refusal::TooLarge);
    }
    Ok(all)
}
