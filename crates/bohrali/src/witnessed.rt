// The number of a trace that is a witness or not: 1 or 0, or the refusal's number negated.
ghost use Rattle.std.specs.Prelude.{◌≡◌};
ghost use Rattle.theory_calls.specs.Witness.{number_of};

use chart::format::Refusal;
use output::signed::{counted, negated};

pub fn number_of(witnessed: Result<bool, Refusal>) -> i64
    ensures { result ≡ number_of witnessed }
{
    match witnessed {
        Ok(holds) => { if holds { counted(1) } else { counted(0) } }
        Err(refusal) => negated(refusal),
    }
}
