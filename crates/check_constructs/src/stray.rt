// Row 6 of the refusals, of the nodes: none but begins and ends lies directly in a sections.
ghost use Rattle.std.specs.Prelude.{◌≡◌, length, replicate};
ghost use Rattle.lists.specs.Range.{any};
ghost use Rattle.chart.specs.Format.{decode};
ghost use Rattle.chart.specs.Refusal.{stray_node};
ghost use Rattle.chart.specs.Checked.{Laid};
ghost use Rattle.check_constructs.specs.Sections.{SectionsBelow};

use chart::format::{Chart, Construct, Node};

// There is a flag for every value of a byte, so that no number of a node is out of range.
const BYTES: usize = 256;

// A flag on each sections, where none is before: 1 or 0, which `check_constructs.specs.Sections` promises.
fn flag_sections(s: &[u8], chart: Chart, flags: &mut [u8; BYTES])
    requires { Laid s.now chart × (flags.old ≡ replicate 256 0) }
    ensures { SectionsBelow (decode s.now).constructs chart.constructs flags.new }
{
    for c in 0..chart.constructs {
        flags[c] = (Construct::read(s, chart, c).kind == Construct::SECTIONS) as u8;
    }
}

// Row 6 of the nodes. Their tests are gathered without a branch, since what a node lies in is hard to tell ahead on a chart that was not seen before.
pub fn stray_nodes(s: &[u8], chart: Chart) -> bool
    requires { Laid s.now chart }
    ensures { result ≡ any (length (decode s.now).nodes) (stray_node (decode s.now)) }
{
    let mut flags = [0u8; BYTES];
    flag_sections(s, chart, &mut flags);
    let mut found = 0u8;
    for x in 0..chart.nodes {
        let node = Node::read(s, chart, x);
        let plain = (node.kind < Node::BEGIN) as u8;
        found |= plain & flags[usize::from(node.number)];
    }
    found != 0
}
