// Teams of a known size: which sizes a call takes, and what the rules read of one.
ghost use Rattle.std.specs.Prelude.{◌≡◌, cond, ◌&&◌, [], eqb, leb};
ghost use Rattle.std.proofs.Math.Option.{none, some};
ghost use Rattle.lists.specs.Mask.{mask_of};
ghost use Rattle.chart.specs.Format.{decode};
ghost use Rattle.chart.specs.Scope.{master_byte};
ghost use Rattle.chart.specs.Refusal.{first_of};
ghost use Rattle.chart.specs.Checked.{Laid, reading};
ghost use Rattle.theory_answers.specs.Size.{size_rows};
ghost use Rattle.mark_tables.specs.Tables.{Accepted};
ghost use Rattle.output.specs.Output.{output_rows, written_by};
ghost use Rattle.answer_constructs.specs.Chains.{is_over};
ghost use Rattle.answer_constructs.specs.Marks.{Sized};
ghost use Rattle.chart.specs.declared.format.Refusal.TheVariants.{BadSize};

use crate::kinds::{KindTable, Sets};
use crate::passing::passing;
use chart::format::{Chart, Construct, Refusal};
use output::room_for;
use theory_answers::Size;

// Row 21.
#[tactic(auto, unfolding(chart::specs::Refusal::first_of, theory_answers::specs::Size::size_row))]
pub fn bad_size(size: Size) -> bool
    ensures { first_of (size_rows size) ≡ cond result (some BadSize) none }
{
    match size {
        Size::Any => false,
        Size::Of(threads) => { threads < Size::LEAST || threads > Size::MOST }
    }
}

// Rows 11 and 21, for a result of so many bytes.
pub fn room_sized(bytes: usize, room: usize, size: Size) -> Result<usize, Refusal>
    ensures { result ≡ written_by (output_rows [] room bytes (size_rows size)) bytes }
{
    let count = room_for(bytes, room)?;
    if bad_size(size) {
        return Err(Refusal::BadSize);
    }
    Ok(count)
}

// Whether a construct is a master for a thread that a team of so many lacks.
fn over(construct: Construct, threads: usize) -> bool
    ensures { result ≡ (eqb construct.kind master_byte && leb threads construct.filter) }
{
    construct.kind == Construct::MASTER && construct.filter >= threads
}

fn missing_of(s: &[u8], chart: Chart, threads: usize) -> u64
    requires { Laid s.now chart }
    ensures { result ≡ mask_of (is_over (decode s.now).constructs threads) chart.constructs }
{
    passing(chart.constructs, |c, _| {
        over(Construct::read(s, chart, c), threads)
    })
}

// What the rules read of teams of this size, given the constructs of their kinds.
pub fn sets_for(s: &[u8], chart: Chart, size: Size, kinds: &KindTable) -> Sets
    requires { Accepted s.now chart }
    ensures sized { Sized (reading s.now chart) size result }
    ensures kinds_value { result.kinds ≡ kinds.now }
{
    match size {
        Size::Any => Sets {
            kinds: *kinds,
            alone: false,
            missing: 0,
        },
        Size::Of(threads) => Sets {
            kinds: *kinds,
            alone: threads <= 1,
            missing: missing_of(s, chart, threads),
        },
    }
}
