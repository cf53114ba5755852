// Node numbers that a caller hands over.
ghost use Rattle.std.specs.Prelude.{◌≡◌, ◌≤◌};
ghost use Rattle.chart.specs.Region.{Region};
ghost use Rattle.chart.specs.WellFormed.{WellFormed};
ghost use Rattle.chart.specs.Checked.{reading};
ghost use Rattle.theory_answers.specs.Numbers.{bad_number};
ghost use Rattle.mark_tables.specs.Tables.{Accepted, Closed};

use chart::format::Chart;
use mark_tables::closed::closed_at;

// Row 13, of one number: that of none of n nodes, or of one that a claim may not name.
pub fn bad_number(x: usize, n: usize, closed: &[u8; Chart::NODES]) -> bool
    requires { n ≤ 192 }
    ensures { (R : Region) → WellFormed R → R.nodes ≡ n → Closed R closed.now → result ≡ bad_number R x }
{
    x >= n || closed[x] != 0
}

// The same of a chart, where few numbers are asked about.
pub fn bad_node(s: &[u8], chart: Chart, x: usize) -> bool
    requires { Accepted s.now chart × WellFormed (reading s.now chart) }
    ensures { result ≡ bad_number (reading s.now chart) x }
{
    x >= chart.nodes || closed_at(s, chart, x) != 0
}
