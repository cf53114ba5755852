// Rows 1 to 4 of the refusals, over the trailer.
#![tactic(auto)]

ghost use Rattle.std.specs.Prelude.{◌≡◌, ◌+◌, ◌*◌, ◌≤◌, ◌<◌, length};
ghost use Rattle.chart.specs.Format.{decode};
ghost use Rattle.chart.specs.Refusal.{bad_edition, bad_marks, bad_counts, bad_lengths, first_of, trailer_rows};
ghost use Rattle.chart.specs.Checked.{counts_of, checked_by};

use chart::cursor::{Cursor, construct_bytes};
use chart::format::{Chart, Edge, Node, Refusal};

#[tactic(auto, using(std::proofs::lemmas::Bool::Decides::nat_tests), unfolding(chart::specs::Refusal::bad_edition))]
fn bad_edition(edition: usize) -> bool
    ensures { result ≡ bad_edition edition }
{
    edition != Chart::EDITION_1 && edition != Chart::EDITION_2
}

// Row 2.
fn bad_marks(s: &[u8]) -> bool
    requires { 16 ≤ length s.now }
    ensures { result ≡ bad_marks (decode s.now).trailer }
{
    let cursor = Cursor::trailer(s);
    bad_edition(cursor.field(s, 0)) || cursor.field(s, 14) != Chart::CLOSING
}

// Row 3.
#[tactic(auto, using(std::proofs::lemmas::Bool::Decides::nat_tests), unfolding(chart::specs::Refusal::bad_counts))]
fn bad_counts(chart: Chart) -> bool
    ensures { result ≡ bad_counts chart.nodes chart.edges chart.constructs }
{
    let n = chart.nodes;
    let e = chart.edges;
    n < Chart::LEAST_NODES
        || Chart::NODES < n
        || e < Chart::LEAST_EDGES
        || Chart::EDGES < e
        || Chart::CONSTRUCTS < chart.constructs
}

// Row 4.
fn bad_lengths(s: &[u8], chart: Chart) -> bool
    requires { (16 ≤ length s.now) × (chart ≡ counts_of s.now) × (chart.nodes < 65536) × (chart.edges < 65536) × (chart.constructs < 65536) }
    ensures { result ≡ bad_lengths (length s.now) (decode s.now).trailer }
{
    let cursor = Cursor::trailer(s);
    let all = s.len();
    let n = chart.nodes;
    let e = chart.edges;
    let constructs = construct_bytes(chart.edition, chart.constructs);
    all != Node::BYTES * n + Edge::BYTES * e + constructs + Chart::TRAILER_BYTES
        || cursor.field(s, 8) != all
        || cursor.field(s, 10) != Edge::BYTES * e + constructs + Chart::TRAILER_BYTES
        || cursor.field(s, 12) != constructs + Chart::TRAILER_BYTES
}

// Rows 1 to 4: the counts, or the refusal.
pub fn read_trailer(s: &[u8]) -> Result<Chart, Refusal>
    ensures { result ≡ checked_by (first_of (trailer_rows s.now)) (counts_of s.now) }
{
    if s.len() < Chart::TRAILER_BYTES {
        return Err(Refusal::TooShort);
    }
    if bad_marks(s) {
        return Err(Refusal::BadMarks);
    }
    let chart = Chart::read(s);
    if bad_counts(chart) {
        return Err(Refusal::BadCounts);
    }
    if bad_lengths(s, chart) {
        return Err(Refusal::BadLengths);
    }
    Ok(chart)
}
