// Row 20 of the refusals, of a list of accesses.
ghost use Rattle.std.specs.Prelude.{◌≡◌, ℕ, ◌+◌, ◌*◌, ◌≤◌, ◌<◌, length};
ghost use Rattle.lists.specs.Range.{any};
ghost use Rattle.chart.specs.Region.{Region};
ghost use Rattle.chart.specs.WellFormed.{WellFormed};
ghost use Rattle.chart.specs.Checked.{reading};
ghost use Rattle.mark_tables.specs.Tables.{Accepted, Closed};
ghost use Rattle.theory_calls.specs.Access.{access_at, bad_access, bad_accesses};

use answer_pairs::numbers::bad_number;
use chart::format::Chart;
use mark_tables::closed::load_closed;
use theory_calls::Access;

// Row 20, of access i by itself.
fn bad_access(accesses: &[u8], i: usize, n: usize, closed: &[u8; Chart::NODES]) -> bool
    requires { (4 * i + 3 < length accesses.now) × (n ≤ 192) }
    ensures { (R : Region) → WellFormed R → R.nodes ≡ n → Closed R closed.now → result ≡ bad_access R (access_at accesses.now i) }
{
    let at = Access::BYTES * i;
    accesses[at + 1] > Access::WRITE || bad_number(usize::from(accesses[at]), n, closed)
}

// Row 20, of the first k accesses.
fn any_bad(accesses: &[u8], k: usize, n: usize, closed: &[u8; Chart::NODES]) -> bool
    requires { (4 * k ≤ length accesses.now) × (n ≤ 192) }
    ensures { (R : Region) → WellFormed R → R.nodes ≡ n → Closed R closed.now → result ≡ any k (λ i. bad_access R (access_at accesses.now i)) }
{
    (0..k).any(|i| bad_access(accesses, i, n, closed))
}

// Row 20.
pub fn bad_accesses(s: &[u8], chart: Chart, accesses: &[u8]) -> bool
    requires { Accepted s.now chart × WellFormed (reading s.now chart) }
    ensures { result ≡ bad_accesses (reading s.now chart) accesses.now }
{
    let n = accesses.len() / Access::BYTES;
    let many = n > Access::MOST;
    if accesses.len() % Access::BYTES != 0 || many {
        return true;
    }
    let mut closed = [0u8; Chart::NODES];
    load_closed(s, chart, &mut closed);
    any_bad(accesses, n, chart.nodes, &closed)
}
