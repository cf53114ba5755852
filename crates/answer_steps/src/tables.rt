// What a step reads: a table of the region, made once for a trace, and the table of the team.
ghost use Rattle.std.specs.Prelude.{◌≡◌, ◌+◌, ◌*◌, ◌/◌, ◌%◌, ◌<◌, length, get_or};
ghost use Rattle.lists.specs.Bits.{has as has_bit};
ghost use Rattle.answer_steps.specs.Teams.{thread_at, count_at, taken_at};

use chart::format::Chart;
use masks::bits::has;
use theory_traces::Thread;

// A column of the nodes has a place for each byte; so has a mask of nodes, 64 in a word.
pub const BYTES: usize = 256;

pub const WORDS: usize = BYTES / 64;

// The table of a region: columns of the nodes, with a place for each byte, then columns of the constructs, then single numbers, then masks by construct.
pub type RegionTable = [u64; REGION];

// Four words of a node: the mask of the nodes that its edges lead to.
pub const EDGES: usize = 0;
// What a node is: PLAIN, BARRIER, OPENS or CLOSES.
pub const ROLES: usize = EDGES + WORDS * BYTES;
// The construct that it opens or closes.
pub const NUMBERS: usize = ROLES + BYTES;
// The mask of the constructs around it, of this region or another.
pub const INSIDES: usize = NUMBERS + BYTES;

pub const KINDS: usize = INSIDES + BYTES;

pub const PARENTS: usize = KINDS + Chart::CONSTRUCTS;

pub const THREADS: usize = PARENTS + Chart::CONSTRUCTS;

pub const BEGINS: usize = THREADS + Chart::CONSTRUCTS;

pub const ENDS: usize = BEGINS + Chart::CONSTRUCTS;
// The mask of the region's constructs.
pub const MEMBERS: usize = ENDS + Chart::CONSTRUCTS;

pub const CONSTRUCTS: usize = MEMBERS + 1;

pub const START: usize = CONSTRUCTS + 1;

pub const FINISH: usize = START + 1;

pub const NODES: usize = FINISH + 1;

// For each construct the masks of its sections, and of the region's ordereds that stand in it.
pub const SECTIONS: usize = NODES + 1;

pub const ORDEREDS: usize = SECTIONS + Chart::CONSTRUCTS;

pub const REGION: usize = ORDEREDS + Chart::CONSTRUCTS;

pub const BARRIER: usize = 1;

pub const OPENS: usize = 2;

pub const CLOSES: usize = 3;

// The table of a team: what each thread has done, the nodes chosen for a release that is not yet whole and how many they are, and what a release sets back.
#[derive(Clone, Copy)]
pub struct TeamTable {
    pub threads: [Thread; Thread::MOST],
    pub chosen: [u8; Thread::MOST],
    pub pending: usize,
    // the mask of the constructs of which some thread has a count, or sections taken
    pub left: u64,
}

impl TeamTable {
    // Of which nothing is known.
    pub const BLANK: TeamTable = TeamTable {
        threads: [Thread {
            node: 0,
            counts: [0; Chart::CONSTRUCTS],
            taken: [0; Chart::CONSTRUCTS],
        }; Thread::MOST],
        chosen: [0; Thread::MOST],
        pending: 0,
        left: 0,
    };
}

// A number of the region's table.
pub fn at(table: &RegionTable, place: usize) -> usize
    requires { (length table.now ≡ 2133) × (place < 2133) }
    ensures { result ≡ get_or table.now place 0 }
{
    table[place] as usize
}

// Whether an edge leads from x to y.
pub fn leads(table: &RegionTable, x: usize, y: usize) -> bool
    requires { (length table.now ≡ 2133) × (x < 256) × (y < 256) }
    ensures { result ≡ has_bit (get_or table.now (4 * x + y / 64) 0) (y % 64) }
{
    has(table[WORDS * x + y / 64], y % 64)
}

// The node of a thread.
pub fn node_of(team: &TeamTable, t: usize) -> usize
    requires { t < 8 }
    ensures { result ≡ (thread_at team.now t).node }
{
    usize::from(team.threads[t].node)
}

// How often it has left the begin of c.
pub fn count_of(team: &TeamTable, t: usize, c: usize) -> u64
    requires { (t < 8) × (c < 48) }
    ensures { result ≡ count_at team.now t c }
{
    team.threads[t].counts[c]
}

// The sections that it has taken of c.
pub fn taken_of(team: &TeamTable, t: usize, c: usize) -> u64
    requires { (t < 8) × (c < 48) }
    ensures { result ≡ taken_at team.now t c }
{
    team.threads[t].taken[c]
}
