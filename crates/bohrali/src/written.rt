// The number of a call that writes: the bytes written, or the refusal's number negated.
ghost use Rattle.std.specs.Prelude.{◌≡◌, ℕ, ◌^◌, ◌<◌};
ghost use Rattle.output.specs.Output.{number_of};

use chart::format::Refusal;
use output::signed::{counted, negated};

pub fn number_of(written: Result<usize, Refusal>) -> i64
    requires { (count : ℕ) → written ≡ Ok count → count < 2 ^ 63 }
    ensures { result ≡ number_of written }
{
    match written {
        Ok(count) => counted(count),
        Err(refusal) => negated(refusal),
    }
}
