// A mask as eight bytes, little-endian.
ghost use Rattle.std.specs.Prelude.{◌+◌, ◌/◌, ◌%◌, ◌≤◌, ◌<◌, length};
ghost use Rattle.theory_calls.specs.Bytes.{Put};

// Writes the mask to the eight bytes of out that begin at `at`.
pub fn put_mask(out: &mut [u8], at: usize, mask: u64)
    requires { at + 8 ≤ length out.old }
    ensures { Put at 8 mask out.old out.new }
{
    out[at..at + output::MASK].copy_from_slice(&mask.to_le_bytes());
}
