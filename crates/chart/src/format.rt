// The numbers of the format and the types that they describe.

// A chart whose trailer has been read, by its edition and counts, and the region that it is read for; its limits; and the marks of its
// trailer.
#[derive(Clone, Copy)]
pub struct Chart {
    pub edition: usize,
    pub nodes: usize,
    pub edges: usize,
    pub constructs: usize,
    pub region: usize,
}

impl Chart {
    pub const LEAST_NODES: usize = 2;

    pub const NODES: usize = 192;

    pub const LEAST_EDGES: usize = 1;

    pub const EDGES: usize = 1024;

    pub const CONSTRUCTS: usize = 48;

    pub const BARRIERS: usize = 64;
    // In place of a parallel's number, the outermost region.
    pub const OUTERMOST: usize = 255;
    // A place for each node where its edges begin, and one where the last one's end.
    pub const PLACES: usize = Chart::NODES + 1;

    pub const EDITION_1: usize = 1;
    // With a filter in each construct's record.
    pub const EDITION_2: usize = 2;
    // The bytes 4F 43, read as a field.
    pub const CLOSING: usize = 0x434f;

    pub const TRAILER_BYTES: usize = 16;
    // The length of a chart of edition 2 at all limits.
    pub const MOST_BYTES: usize = Node::BYTES * Chart::NODES
        + Edge::BYTES * Chart::EDGES
        + Construct::BYTES_2 * Chart::CONSTRUCTS
        + Chart::TRAILER_BYTES;
    // Such a chart with one edge more.
    pub const SCRATCH_BYTES: usize = Chart::MOST_BYTES + Edge::BYTES;
    // A row for each kind of construct, a column for each kind above it: single, master, critical, do, ordered, sections, section, parallel. The
    // column of parallel is not asked: nesting starts anew inside each region.
    pub const NESTING: [[bool; Construct::KINDS]; Construct::KINDS] = [
        [false, false, false, false, false, false, false, false],
        [false, false, true, false, false, false, false, false],
        [true, true, true, true, true, true, true, true],
        [false, false, false, false, false, false, false, false],
        [false, false, false, true, false, false, false, false],
        [false, false, false, false, false, false, false, false],
        [false, false, false, false, false, true, false, false],
        [true, true, true, true, true, true, true, true],
    ];
}

// A node's record, without its tag, which nothing reads.
#[derive(Clone, Copy)]
pub struct Node {
    pub kind: u8,
    pub number: u8,
}

impl Node {
    pub const BYTES: usize = 4;

    pub const PLAIN: u8 = 0;

    pub const BARRIER: u8 = 1;

    pub const BEGIN: u8 = 2;

    pub const END: u8 = 3;
}

#[derive(Clone, Copy, PartialEq, Eq)]
pub struct Edge {
    pub from: u8,
    pub to: u8,
}

impl Edge {
    pub const BYTES: usize = 2;
}

// The filter is 0 in edition 1, whose records have none.
#[derive(Clone, Copy)]
pub struct Construct {
    pub kind: u8,
    pub parent: u8,
    pub name: usize,
    pub filter: usize,
}

impl Construct {
    // A record's bytes, by edition.
    pub const BYTES_1: usize = 4;

    pub const BYTES_2: usize = 6;

    pub const SINGLE: u8 = 1;
    // Masked in edition 2, which gives it a filter.
    pub const MASTER: u8 = 2;

    pub const CRITICAL: u8 = 3;

    pub const DO: u8 = 4;

    pub const ORDERED: u8 = 5;

    pub const SECTIONS: u8 = 6;

    pub const SECTION: u8 = 7;

    pub const PARALLEL: u8 = 8;
    // How many kinds there are.
    pub const KINDS: usize = 8;
    // The kind of what is no construct.
    pub const NO_KIND: u8 = 0;
    // The number that stands for no construct.
    pub const NONE: u8 = 255;
    // A place for each bit of a mask: a search starts from such a list of nodes.
    pub const FRAMES: usize = 64;
}

// For each construct the node where it begins, or that where it ends.
pub type Frames = [u8; Construct::FRAMES];

// Both, as row 7 of the refusals finds them.
#[derive(Clone, Copy)]
pub struct Framing {
    pub begins: Frames,
    pub ends: Frames,
}

impl Framing {
    // Before they are found.
    pub const NONE: Framing = Framing {
        begins: [0u8; Construct::FRAMES],
        ends: [0u8; Construct::FRAMES],
    };
}

// Why a call refuses: a variant for each row of 01's table and of 02's, which is its number.
#[derive(Clone, Copy, Debug, PartialEq, Eq)]
pub enum Refusal {
    TooShort = 1,
    BadMarks = 2,
    BadCounts = 3,
    BadLengths = 4,
    BadNodes = 5,
    BadConstructs = 6,
    BadFrames = 7,
    BadBarriers = 8,
    BadEdges = 9,
    BadPaths = 10,
    NoRoom = 11,
    OddClaims = 12,
    BadNumber = 13,
    BadGrammar = 14,
    TooDeep = 15,
    TooLarge = 16,
    OldReceipt = 17,
    NoSpace = 18,
    NoEdge = 19,
    BadAccesses = 20,
    BadSize = 21,
    BadTrace = 22,
    NoRegion = 23,
}

impl From<Refusal> for u8 {
    ghost use Rattle.std.specs.Prelude.{◌≡◌};
    ghost use Rattle.chart.specs.Refusal.{row_number};

    ghost from_gives = { λ refusal number. number ≡ row_number refusal };

    fn from(refusal: Refusal) -> u8 {
        refusal as u8
    }
}
