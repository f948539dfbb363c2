// How the programs read: a part at a time, each of a size that is known before it is read.
#![tactic(auto)]

ghost use Rattle.std.specs.Prelude.{◌≡◌, ◌<◌, ◌≤◌, length, take, Ok, IfOk, None, IfNone, IfSome};
ghost use Rattle.std.specs.Io.KnownBytes.{Consumes, IsAtEnd};
ghost use Rattle.input.specs.Input.{RunsOut};

use std::io::{self, Read};

// Reads until the buffer is full or the input ends; how many bytes came. std's `read_exact` does not say how many, and reads again
// after an interrupt, which this hands on.
pub fn read_full<R: Read>(input: &mut R, buffer: &mut [u8]) -> io::Result<usize>
    ensures bound { IfOk result (λ n. n ≤ length buffer.new) }
    ensures bytes { IfOk result (λ n. Consumes (R.remaining input.old) (R.remaining input.new) (take n buffer.new)) }
    ensures end { IfOk result (λ n. n < length buffer.new → IsAtEnd (R.remaining input.new)) }
{
    let mut done: usize = 0;
    while done < buffer.len() {
        let got = input.read(&mut buffer[done..])?;
        if got == 0 {
            return Ok(done);
        }
        done += got;
    }
    Ok(done)
}

// Reads a part of so many bytes to the buffer's start; none where the buffer is shorter, and then nothing is read, or where the
// input ends before.
pub fn read_part<'a, R: Read>(
    input: &mut R,
    buffer: &'a mut [u8],
    size: usize,
) -> io::Result<Option<&'a [u8]>>
    ensures part { IfOk result (λ read. IfSome read (λ part. (length part.now ≡ size) × (size ≤ length buffer.old))) }
    ensures bytes { IfOk result (λ read. IfSome read (λ part. Consumes (R.remaining input.old) (R.remaining input.new) part.now)) }
    ensures none { IfOk result (λ read. IfNone read (size ≤ length buffer.old → RunsOut (R.remaining input.old) (R.remaining input.new) size)) }
    ensures short { length buffer.old < size → (result ≡ Ok None) × (input.new ≡ input.old) }
{
    if buffer.len() < size {
        return Ok(None);
    }
    let part = &mut buffer[..size];
    if read_full(input, part)? == size {
        Ok(Some(part))
    } else {
        Ok(None)
    }
}
