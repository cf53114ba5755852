// The input of a program that takes lists of bytes: each stands there after its length, a field of two bytes, little-endian.
ghost use Rattle.std.specs.Prelude.{◌≡◌, ◌↔◌, ◌+◌, ◌≤◌, ◌<◌, IsSome, IfSome, IfOk, length};
ghost use Rattle.chart.specs.Format.{field};
ghost use Rattle.program_io.specs.Part.{list_in, after_list};

use std::io;
use std::io::Read;

// Bytes of a length, and the most that it can be.
pub const LENGTH: usize = 2;

pub const MOST: usize = 65535;

// The list at the front and what comes after it, if the input has all of the list.
pub fn split_list(input: &[u8]) -> Option<(&[u8], &[u8])>
    ensures whole { IsSome result ↔ (2 + field input.now 0 ≤ length input.now) }
    ensures parts { IfSome result (λ p. (p.0.now ≡ list_in input.now) × (p.1.now ≡ after_list input.now)) }
{
    let (size, rest) = input.split_first_chunk::<LENGTH>()?;
    rest.split_at_checked(usize::from(u16::from_le_bytes(*size)))
}

// Reads until the buffer is full or the input ends, and answers how many bytes it put at the buffer's start. After an error those that were read
// before it are gone from the input.
pub fn read_full(rt: &impl Input, buffer: &mut [u8]) -> io::Result<usize>
    ensures { IfOk result (λ n. n ≤ length buffer.new) }
{
    let mut reader = rt.reader();
    let mut done = 0;
    while done < buffer.len() {
        let n = reader.read(&mut buffer[done..])?;
        if n == 0 {
            break;
        }
        done += n;
    }
    Ok(done)
}

// The whole input, if it ends before the buffer is full.
pub fn read_shorter<'a>(rt: &impl Input, buffer: &'a mut [u8]) -> io::Result<Option<&'a [u8]>>
    ensures { IfOk result (λ read. IfSome read (λ input. length input.now < length buffer.old)) }
{
    let n = read_full(rt, buffer)?;
    if n < buffer.len() {
        Ok(Some(&buffer[..n]))
    } else {
        Ok(None)
    }
}
