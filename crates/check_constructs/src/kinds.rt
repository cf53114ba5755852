// Kinds of constructs as bits of a byte, bit k for kind k, so that all that stands above a construct is asked by one test.
ghost use Rattle.std.specs.Prelude.{◌≡◌, cond, ◌+◌, ◌<◌, eqb};
ghost use Rattle.std.specs.Int.Bits.{bit_or};
ghost use Rattle.lists.specs.Mask.{mask_of};
ghost use Rattle.chart.specs.Scope.{parallel_byte};
ghost use Rattle.chart.specs.Nesting.{kinds, NestingTable};
ghost use Rattle.check_constructs.specs.Kinds.{bit_of, barred_by, BarredTable};

use chart::format::Construct;

// The bit of a kind. Parallel and no kind share bit 0: neither stands above anything in its region.
pub fn bit(kind: u8) -> u8
    ensures { result ≡ bit_of kind }
{
    1u8 << (kind % 8)
}

// The kinds above what stands in a construct, by those above the construct itself. Nesting starts anew inside a parallel.
pub fn within(kind: u8, above: u8) -> u8
    ensures { result ≡ cond (eqb kind parallel_byte) 0 (bit_or above (bit_of kind)) }
{
    if kind == Construct::PARALLEL {
        0
    } else {
        above | bit(kind)
    }
}

// A row of the nesting table as the bits of the kinds that may not stand above its kind. The column of parallel is not asked.
fn row_bits(table: &[[bool; Construct::KINDS]; Construct::KINDS], row: usize) -> u8
    requires { NestingTable table.now × (row < kinds) }
    ensures { result ≡ mask_of (barred_by (row + 1)) 8 }
{
    let mut bits = 0u8;
    for k in 1..Construct::KINDS {
        bits = (((!table[row][k - 1]) as u8) << k) | bits;
    }
    bits
}

// All rows. The nesting table is a constant, so that the compiler makes constants of them.
pub fn barred_kinds(table: &[[bool; Construct::KINDS]; Construct::KINDS]) -> [u8; Construct::KINDS]
    requires { NestingTable table.now }
    ensures { BarredTable result }
{
    let mut barred = [0u8; Construct::KINDS];
    for row in 0..Construct::KINDS {
        barred[row] = row_bits(table, row);
    }
    barred
}
