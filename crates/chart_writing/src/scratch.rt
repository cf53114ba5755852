// Bytes that are put together one after the other from the front of some memory on. What is promised tells of the bytes up to where the next ones go,
// so that a row of calls is a chain of equations.
ghost use Rattle.std.specs.Prelude.{◌≡◌, [], ◌∷◌, ◌++◌, ◌+◌, ◌≤◌, ◌<◌, length, take, drop};
ghost use Rattle.chart_writing.specs.Bytes.{field_bytes, trailer_bytes};
ghost use Rattle.chart_writing.specs.Trailer.{trailer_for};
ghost use Rattle.chart_writing.specs.ScratchTrailer.{Small, count_bytes, distance_bytes};

use chart::cursor::construct_bytes;
use chart::format::{Chart, Edge, Node};

pub fn put_byte(out: &mut [u8], at: usize, byte: u8)
    requires { at < length out.old }
    ensures { take (at + 1) out.new ≡ take at out.old ++ (byte ∷ []) }
{
    out[at] = byte;
}

// A field of two bytes, little-endian.
pub fn put_field(out: &mut [u8], at: usize, value: usize)
    requires { (at + 2 ≤ length out.old) × (value < 65536) }
    ensures { take (at + 2) out.new ≡ take at out.old ++ field_bytes value [] }
{
    put_part(out, at, &(value as u16).to_le_bytes());
}

// All bytes of a part; what stands past them stays.
pub fn put_part(out: &mut [u8], at: usize, part: &[u8])
    requires { at + length part.now ≤ length out.old }
    ensures out_after { take (at + length part.now) out.new ≡ take at out.old ++ part.now }
    ensures out_unchanged { drop (at + length part.now) out.new ≡ drop (at + length part.now) out.old }
{
    out[at..at + part.len()].copy_from_slice(part);
}

// The first half of a trailer: edition and counts.
fn put_counts(out: &mut [u8], at: usize, chart: Chart)
    requires { (at + 8 ≤ length out.old) × Small chart }
    ensures { take (at + 8) out.new ≡ take at out.old ++ count_bytes chart }
{
    put_field(out, at, chart.edition);
    put_field(out, at + 2, chart.nodes);
    put_field(out, at + 4, chart.edges);
    put_field(out, at + 6, chart.constructs);
}

// The second half: distances and the closing bytes.
fn put_distances(out: &mut [u8], at: usize, chart: Chart)
    requires { (at + 8 ≤ length out.old) × Small chart }
    ensures { take (at + 8) out.new ≡ take at out.old ++ distance_bytes chart }
{
    let constructs = construct_bytes(chart.edition, chart.constructs) + Chart::TRAILER_BYTES;
    let edges = Edge::BYTES * chart.edges + constructs;
    put_field(out, at, Node::BYTES * chart.nodes + edges);
    put_field(out, at + 2, edges);
    put_field(out, at + 4, constructs);
    put_field(out, at + 6, Chart::CLOSING);
}

// The trailer of a chart, by its edition and counts.
pub fn put_trailer(out: &mut [u8], at: usize, chart: Chart)
    requires { (at + 16 ≤ length out.old) × Small chart }
    ensures { take (at + 16) out.new ≡ take at out.old ++ trailer_bytes (trailer_for chart.edition chart.nodes chart.edges chart.constructs) }
{
    put_counts(out, at, chart);
    put_distances(out, at + 8, chart);
}
