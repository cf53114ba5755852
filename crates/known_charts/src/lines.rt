// Spelt charts, one on each line: name, nodes, edges and constructs, with a / between them. After one more / comes the trailer in
// hexadecimal; where it is left out it follows from the parts. A | before the constructs, in place of a /, is for edition 2. A line with a ? in front has pairs
// of nodes of the chart above it, of the outermost region or, after an @, of the region that the next letter names, for teams of any size or,
// after a *, of the size whose two bytes the next letters spell; one with a # in front is a comment.
use crate::draft::Draft;
use crate::report::{report, report_pair};
use chart::format::{Chart, Construct, Node};
use std::io;
use theory_answers::Size;

// What the next letter belongs to. The second letter of a size comes after its low byte.
#[derive(Clone, Copy, PartialEq, Eq)]
enum Part {
    Name,
    Nodes,
    Edges,
    Constructs,
    Trailer,
    Pairs,
    Region,
    Size,
    SizeHigh(u8),
    Comment,
}

// How far a text has been read: the part of the line, its chart, how long the chart above it is, the first half of a byte of the trailer or of a pair,
// and the region and the size that its pairs are asked for.
#[derive(Drop)]
struct Reader {
    part: Part,
    draft: Draft,
    above: usize,
    half: Option<u8>,
    region: u8,
    size: Size,
}

// The byte that a letter stands for. Kinds have letters of their own. Digits and then capitals are numbers, - is the number for none, ~ the one before
// it, and . a zero.
fn value(letter: u8) -> u8 {
    match letter {
        b'0'..=b'9' => letter - b'0',
        b'A'..=b'Z' => letter - b'A' + 10,
        b'p' => Node::PLAIN,
        b'b' => Node::BARRIER,
        b'<' => Node::BEGIN,
        b'>' => Node::END,
        b's' => Construct::SINGLE,
        b'm' => Construct::MASTER,
        b'c' => Construct::CRITICAL,
        b'd' => Construct::DO,
        b'o' => Construct::ORDERED,
        b'~' => Construct::NONE - 1,
        b'-' => Construct::NONE,
        _ => 0,
    }
}

impl Reader {
    fn new() -> Reader {
        Reader {
            part: Part::Name,
            draft: Draft::new(),
            above: 0,
            half: None,
            region: Construct::NONE,
            size: Size::Any,
        }
    }

    // Begins a line, or what takes the place of one.
    fn begin(&mut self, part: Part) {
        self.part = part;
        self.draft.restart();
        self.half = None;
        self.region = Construct::NONE;
        self.size = Size::Any;
    }

    // The / after a part.
    fn next(&mut self) {
        self.part = match self.part {
            Part::Name => Part::Nodes,
            Part::Nodes => {
                self.draft.end_nodes();
                Part::Edges
            }
            Part::Edges => {
                self.draft.end_edges();
                Part::Constructs
            }
            Part::Constructs => Part::Trailer,
            part => part,
        };
    }

    // The | before the constructs.
    fn filtered(&mut self) {
        self.draft.edition = Chart::EDITION_2;
        self.next();
    }

    // Both halves, at the second one. What is none is no first half.
    fn whole(&mut self, number: u8) -> Option<(u8, u8)> {
        match self.half {
            Some(first) => {
                self.half = None;
                Some((first, number))
            }
            None => {
                if number != Construct::NONE {
                    self.half = Some(number);
                }
                None
            }
        }
    }

    fn letter(&mut self, rt: &impl Print, letter: u8) -> io::Result<()> {
        let number = value(letter);
        match self.part {
            Part::Name => rt.write_all(&[letter])?,
            Part::Nodes | Part::Edges | Part::Constructs => self.draft.put(number),
            Part::Trailer => {
                if let Some((high, low)) = self.whole(number) {
                    self.draft.put(high % 16 * 16 + low % 16);
                }
            }
            Part::Pairs => {
                if let Some((a, b)) = self.whole(number) {
                    report_pair(
                        rt,
                        self.draft.first(self.above),
                        self.region,
                        self.size,
                        a,
                        b,
                    )?;
                }
            }
            Part::Region => {
                self.region = number;
                self.part = Part::Pairs;
            }
            Part::Size => self.part = Part::SizeHigh(number),
            Part::SizeHigh(low) => {
                self.size = Size::Of(usize::from(u16::from_le_bytes([low, number])));
                self.part = Part::Pairs;
            }
            Part::Comment => {}
        }
        Ok(())
    }

    // An @ or a *, which stand before a region and a size in a line of pairs.
    fn asked(&mut self, rt: &impl Print, letter: u8, part: Part) -> io::Result<()> {
        if self.part == Part::Pairs {
            self.part = part;
            return Ok(());
        }
        self.letter(rt, letter)
    }

    // The rest of the line for the chart that ends here, if one does.
    fn end(&mut self, rt: &impl Print) -> io::Result<()> {
        if self.part == Part::Constructs {
            self.draft.put_trailer();
            self.part = Part::Trailer;
        }
        if self.part == Part::Trailer {
            let chart = self.draft.chart();
            report(rt, chart)?;
            self.above = chart.len();
        }
        Ok(())
    }

    fn read(&mut self, rt: &impl Print, letter: u8) -> io::Result<()> {
        match letter {
            b'\n' => {
                self.end(rt)?;
                self.begin(Part::Name);
            }
            b'#' => self.begin(Part::Comment),
            b'?' => self.begin(Part::Pairs),
            b'/' => self.next(),
            b'|' => self.filtered(),
            b'@' => self.asked(rt, letter, Part::Region)?,
            b'*' => self.asked(rt, letter, Part::Size)?,
            b' ' => {}
            _ => self.letter(rt, letter)?,
        }
        Ok(())
    }
}

// Writes a line for each chart of a text.
pub fn read_lines(rt: &impl Print, text: &[u8]) -> io::Result<()> {
    let mut reader = Reader::new();
    for letter in text {
        reader.read(rt, *letter)?;
    }
    Ok(())
}
