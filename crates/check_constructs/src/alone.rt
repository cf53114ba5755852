// Row 6 of the refusals, of a construct by itself.
ghost use Rattle.std.specs.Prelude.{◌≡◌, ◌&&◌, not, eqb, ltb};
ghost use Rattle.chart.specs.Format.{outside};
ghost use Rattle.chart.specs.Refusal.{foreign_number, bad_construct};

use chart::format::Construct;

// A parent that is neither lower than c nor none.
#[tactic(auto, using(std::proofs::lemmas::Bool::Decides::nat_tests))]
fn bad_parent(parent: u8, c: usize) -> bool
    ensures { result ≡ (not (ltb parent c) && not (eqb parent outside)) }
{
    c <= usize::from(parent) && parent != Construct::NONE
}

// A number that only constructs of one kind have, not 0 on another kind.
#[tactic(auto, using(std::proofs::lemmas::Bool::Decides::nat_tests), unfolding(chart::specs::Refusal::foreign_number))]
fn foreign_number(only: u8, kind: u8, number: usize) -> bool
    ensures { result ≡ foreign_number only kind number }
{
    kind != only && number != 0
}

// Row 6, of construct c by itself.
#[tactic(auto, using(std::proofs::lemmas::Bool::Decides::nat_tests), unfolding(chart::specs::Refusal::bad_construct))]
pub fn bad_construct(construct: Construct, c: usize) -> bool
    ensures { result ≡ bad_construct c construct.kind construct.parent construct.name construct.filter }
{
    let kind = construct.kind;
    kind < Construct::SINGLE
        || Construct::KINDS < usize::from(kind)
        || bad_parent(construct.parent, c)
        || foreign_number(Construct::CRITICAL, kind, construct.name)
        || foreign_number(Construct::MASTER, kind, construct.filter)
}
