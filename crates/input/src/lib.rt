// An input, read to its end or to a buffer's.
#![tactic(auto)]

ghost use Rattle.std.specs.Prelude.{◌≤◌, length};
ghost use Rattle.input.specs.Input.{count_of, TakesFront, TakesOnce};

use std::io::{Read, Result};

// One read; no bytes are the end of the input. Every failure counts as one, also what another try might mend: a piece of the input is
// not the input.
pub fn read_once<R: Read>(reader: &mut R, part: &mut [u8]) -> Result<usize>
    ensures within { count_of result ≤ length part.new }
    ensures bytes { TakesOnce (R.remaining reader.old) (R.remaining reader.new) result part.new }
{
    reader.read(part)
}

// Reads until the buffer is full, the input ends or a read fails. One more read after it would not always tell the last two apart: a
// broken connection fails once, and after that it reads as one that ended.
pub fn read<R: Read>(reader: &mut R, buffer: &mut [u8]) -> Result<usize>
    ensures within { count_of result ≤ length buffer.new }
    ensures bytes { TakesFront (R.remaining reader.old) result buffer.new }
{
    let mut count = 0;
    while count < buffer.len() {
        let more = read_once(reader, &mut buffer[count..])?;
        if more == 0 {
            break;
        }
        count += more;
    }
    Ok(count)
}
