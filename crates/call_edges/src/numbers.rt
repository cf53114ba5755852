// The numbers of an edge, of any size, as a record has them.
ghost use Rattle.std.specs.Prelude.{◌≡◌, min};

use chart::format::Edge;

// A number that fits no byte becomes the largest byte, which is no node's either.
fn clip(number: usize) -> u8
    ensures { result ≡ min number 255 }
{
    u8::try_from(number).unwrap_or(u8::MAX)
}

pub fn edge_between(from: usize, to: usize) -> Edge
    ensures { (result.from ≡ min from 255) × (result.to ≡ min to 255) }
{
    Edge {
        from: clip(from),
        to: clip(to),
    }
}
