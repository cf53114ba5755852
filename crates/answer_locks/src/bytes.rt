// A byte for each construct.
ghost use Rattle.std.specs.Prelude.{◌≡◌, ◌≤◌, ◌<◌, length};
ghost use Rattle.answer_locks.specs.Bytes.{byte_by, Put};

use masks::bits::has;
use theory_calls::LockByte;

// The byte of construct c, where some pair needs the locks of `ever`, and those of `needed` in finished runs.
#[tactic(auto, unfolding(crate::specs::Bytes::byte_by))]
fn lock_byte(c: usize, criticals: u64, ever: u64, needed: u64) -> u8
    requires { c < 64 }
    ensures { result ≡ byte_by criticals ever needed c }
{
    if !has(criticals, c) {
        LockByte::NO_CRITICAL
    } else if has(needed, c) {
        LockByte::NEEDED
    } else if has(ever, c) {
        LockByte::DROPPABLE_FINISHED
    } else {
        LockByte::DROPPABLE_ALWAYS
    }
}

// The bytes of the first n constructs.
pub fn put_bytes(n: usize, criticals: u64, ever: u64, needed: u64, out: &mut [u8])
    requires { (n ≤ 48) × (n ≤ length out.old) }
    ensures { Put criticals ever needed n out.old out.new }
{
    for c in 0..n {
        out[c] = lock_byte(c, criticals, ever, needed);
    }
}
