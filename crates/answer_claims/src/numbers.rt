// Row 13 over a list of claims: whether one of its numbers is that of no node that a claim may name.
ghost use Rattle.std.specs.Prelude.{◌≡◌, false, ℕ, ◌≤◌, ◌<◌, get_or};
ghost use Rattle.chart.specs.Region.{Region};
ghost use Rattle.chart.specs.WellFormed.{WellFormed};
ghost use Rattle.chart.specs.Checked.{reading};
ghost use Rattle.mark_tables.specs.Tables.{Accepted, Closed};
ghost use Rattle.theory_answers.specs.Numbers.{bad_number};
ghost use Rattle.theory_calls.specs.Claims.{bad_numbers};

use answer_pairs::numbers::bad_number;
use chart::format::Chart;
use mark_tables::closed::load_closed;

// Row 13, of each number that a byte can be.
fn mark_bad(n: usize, closed: &[u8; Chart::NODES], bad: &mut [bool; 256])
    requires { n ≤ 192 }
    ensures { (R : Region) → WellFormed R → R.nodes ≡ n → Closed R closed.now → (x : ℕ) → x < 256 → get_or bad.new x false ≡ bad_number R x }
{
    *bad = [true; 256];
    for x in 0..n {
        bad[x] = bad_number(x, n, closed);
    }
}

// Row 13. No turn leaves the loop, so that several are taken at once.
pub fn bad_numbers(s: &[u8], chart: Chart, claims: &[u8]) -> bool
    requires { Accepted s.now chart × WellFormed (reading s.now chart) }
    ensures { result ≡ bad_numbers (reading s.now chart) claims.now }
{
    let mut closed = [0u8; Chart::NODES];
    load_closed(s, chart, &mut closed);
    let mut bad = [false; 256];
    mark_bad(chart.nodes, &closed, &mut bad);
    let mut found = false;
    for &x in claims {
        found |= bad[x as usize];
    }
    found
}
