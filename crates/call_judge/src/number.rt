// A verdict's number.
ghost use Rattle.std.specs.Prelude.{◌≡◌, ℕ, ◌+◌, ◌<◌, ◌^◌};
ghost use Rattle.theory_calls.specs.Judged.{number_of};

use chart::format::Refusal;
use output::signed::{counted, negated};

pub fn number_of(verdict: Result<Option<usize>, Refusal>) -> i64
    requires { (index : ℕ) → verdict ≡ Ok (Some index) → index + 1 < 2 ^ 63 }
    ensures { result ≡ number_of verdict }
{
    match verdict {
        Ok(failed) => match failed {
            Some(index) => counted(index + 1),
            None => counted(0),
        },
        Err(refusal) => negated(refusal),
    }
}
