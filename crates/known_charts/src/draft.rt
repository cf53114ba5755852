// A chart put together byte by byte. What finds no room is left out, so that no caller owes a proof.
ghost use Rattle.std.specs.Prelude.{◌≤◌};

use chart::format::{Chart, Construct, Edge, Node};

// Where its nodes and its edges end follows from the calls, and its trailer from these places and from its edition.
#[derive(Drop)]
pub struct Draft {
    pub edition: usize,
    bytes: [u8; Draft::ROOM],
    nodes: usize,
    edges: usize,
    end: usize,
    ghost room: { end ≤ 4096 },
}

impl Draft {
    const ROOM: usize = 4096;

    pub fn new() -> Draft {
        Draft {
            edition: Chart::EDITION_1,
            bytes: [0; Draft::ROOM],
            nodes: 0,
            edges: 0,
            end: 0,
        }
    }

    // Begins anew. The bytes stay until others take their place.
    pub fn restart(&mut self) {
        self.edition = Chart::EDITION_1;
        self.nodes = 0;
        self.edges = 0;
        self.end = 0;
    }

    pub fn put(&mut self, byte: u8) {
        if self.end < Draft::ROOM {
            self.bytes[self.end] = byte;
            self.end += 1;
        }
    }

    // A field of two bytes, little-endian.
    pub fn put_field(&mut self, value: usize) {
        let [low, high] = ((value % 65536) as u16).to_le_bytes();
        self.put(low);
        self.put(high);
    }

    pub fn end_nodes(&mut self) {
        self.nodes = self.end;
    }

    pub fn end_edges(&mut self) {
        self.edges = self.end;
    }

    pub fn put_trailer(&mut self) {
        let constructs = self.end;
        let record = if self.edition == Chart::EDITION_2 {
            Construct::BYTES_2
        } else {
            Construct::BYTES_1
        };
        let length = if constructs + Chart::TRAILER_BYTES <= Draft::ROOM {
            constructs + Chart::TRAILER_BYTES
        } else {
            constructs
        };
        self.put_field(self.edition);
        self.put_field(self.nodes / Node::BYTES);
        self.put_field(self.edges.saturating_sub(self.nodes) / Edge::BYTES);
        self.put_field(constructs.saturating_sub(self.edges) / record);
        self.put_field(length);
        self.put_field(length.saturating_sub(self.nodes));
        self.put_field(length.saturating_sub(self.edges));
        self.put_field(Chart::CLOSING);
    }

    pub fn chart(&self) -> &[u8] {
        &self.bytes[..self.end]
    }

    // The first bytes, as far as there are so many.
    pub fn first(&self, n: usize) -> &[u8] {
        &self.bytes[..n.min(Draft::ROOM)]
    }
}
