// The input of a program, as far as a buffer holds it.
#![tactic(auto)]

ghost use Rattle.std.specs.Prelude.{◌≤◌, length, take};
ghost use Rattle.std.specs.Io.KnownBytes.{Consumes};

use std::io::Read;

// Reads until the buffer is full, the input ends or a read fails, and answers how many bytes stand at its front: all that was read, in its order.
pub fn read_full<R: Read>(from: &mut R, buffer: &mut [u8]) -> usize
    ensures bound { result ≤ length buffer.new }
    ensures bytes { Consumes (R.remaining from.old) (R.remaining from.new) (take result buffer.new) }
{
    let mut end = 0;
    // no `for`: each read says where the next begins
    while end < buffer.len() {
        match from.read(&mut buffer[end..]) {
            Ok(0) | Err(_) => break,
            Ok(k) => end += k,
        }
    }
    end
}
