// Admit's number: three counts in one, or the refusal's number negated.
ghost use Rattle.std.specs.Prelude.{◌≡◌, ◌+◌, ◌*◌, ◌^◌, ◌<◌};
ghost use Rattle.theory_calls.specs.Admission.{number_of};
ghost use Rattle.bohrali.specs.Bounds.{SmallCounts};

use chart::format::Refusal;
use output::signed::{counted, negated};
use theory_calls::Counts;

fn packed(counts: Counts) -> usize
    requires { SmallCounts counts }
    ensures { (result ≡ counts.nodes + 256 * counts.barriers + 65536 * counts.phases) × (result < 2 ^ 63) }
{
    counts.nodes + 256 * counts.barriers + 65536 * counts.phases
}

pub fn number_of(admission: Result<Counts, Refusal>) -> i64
    requires { (counts : Counts) → admission ≡ Ok counts → SmallCounts counts }
    ensures { result ≡ number_of admission }
{
    match admission {
        Ok(counts) => counted(packed(counts)),
        Err(refusal) => negated(refusal),
    }
}
