// The two ways in which a call's answer becomes C's signed number.
ghost use Rattle.std.specs.Prelude.{◌≡◌, ◌<◌, ◌^◌, pos, neg_ℤ};
ghost use Rattle.chart.specs.Refusal.{row_number};

use chart::format::Refusal;

// A count as it is.
pub fn counted(n: usize) -> i64
    requires { n < 2 ^ 63 }
    ensures { result ≡ pos n }
{
    n as i64
}

// A refusal's number, negated.
pub fn negated(refusal: Refusal) -> i64
    ensures { result ≡ neg_ℤ (pos (row_number refusal)) }
{
    -i64::from(u8::from(refusal))
}
