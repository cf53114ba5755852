// The sheet of the pairs met: n rows of n, of which some that follow each other are kept.
ghost use Rattle.std.specs.Prelude.{◌≡◌, ◌≢◌, Bool, ◌&&◌, ◌||◌, ℕ, ◌*◌, ◌≤◌, ◌<◌, eqb, length};
ghost use Rattle.theory_traces.specs.Replay.{together};
ghost use Rattle.call_replay.specs.PairsMet.{meet, meets, next_thread, Sheet, Kept, Marks};

use answer_steps::tables::{TeamTable, node_of};

// The rows kept: those of so many nodes, from the first on.
#[derive(Clone, Copy)]
pub struct Rows {
    pub first: usize,
    pub count: usize,
}

impl Rows {
    // The byte of a pair that is not met, and of one that is.
    pub const NOT_MET: u8 = 0;

    pub const MET: u8 = 1;
}

// The pair of a and b is met, if the row of a is kept. A number that is no node has no entry.
fn mark(n: usize, rows: Rows, a: usize, b: usize, out: &mut [u8])
    requires { rows.count * n ≤ length out.old }
    ensures by_index { (met : ℕ → ℕ → Bool) → Sheet n rows met out.old → Sheet n rows (λ x y. met x y || (eqb a x && eqb b y)) out.new }
    ensures kept { Kept (rows.count * n) out.old out.new }
{
    if n <= b {
        return;
    }
    if a < rows.first {
        return;
    }
    let i = a - rows.first;
    if i < rows.count {
        out[i * n + b] = Rows::MET;
    }
}

// Threads t and k, which are two, have met, both ways round.
fn mark_pair(team: &TeamTable, n: usize, rows: Rows, t: usize, k: usize, out: &mut [u8])
    requires { (t < 8) × (k < 8) × (t ≢ k) × (rows.count * n ≤ length out.old) }
    ensures { Marks (λ σ. meet σ t k) n rows team.now out.old out.new }
{
    let a = node_of(team, t);
    let b = node_of(team, k);
    mark(n, rows, a, b, out);
    mark(n, rows, b, a, out);
}

// Thread t has met those before it.
fn mark_before(team: &TeamTable, n: usize, rows: Rows, t: usize, out: &mut [u8])
    requires { (t < 8) × (rows.count * n ≤ length out.old) }
    ensures { Marks (λ σ. meets t σ t) n rows team.now out.old out.new }
{
    for k in 0..t {
        mark_pair(team, n, rows, t, k, out);
    }
}

// The k-th thread after t, round the team.
fn next_thread(m: usize, t: usize, k: usize) -> usize
    requires { (m ≤ 8) × (t < m) × (k < m) }
    ensures { result ≡ next_thread m t k }
{
    let j = t + k;
    if j < m {
        return j;
    }
    j - m
}

// Thread t has met the others. Which of the team it is makes no branch, since no trace tells it ahead.
pub fn mark_thread(team: &TeamTable, m: usize, n: usize, rows: Rows, t: usize, out: &mut [u8])
    requires { (m ≤ 8) × (t < m) × (rows.count * n ≤ length out.old) }
    ensures { Marks (λ σ. meets m σ t) n rows team.now out.old out.new }
{
    for k in 1..m {
        mark_pair(team, n, rows, t, next_thread(m, t, k), out);
    }
}

// All threads have met.
pub fn mark_state(team: &TeamTable, m: usize, n: usize, rows: Rows, out: &mut [u8])
    requires { (m ≤ 8) × (rows.count * n ≤ length out.old) }
    ensures { Marks (together m) n rows team.now out.old out.new }
{
    for t in 0..m {
        mark_before(team, n, rows, t, out);
    }
}
