//! An input, read to its end: a read that fails is told from the end.
#![tactic(auto)]

ghost use Rattle.std.specs.Prelude.{◌<◌, take, length, IfOk};
ghost use Rattle.std.specs.Io.{ReadsAtMost};
ghost use Rattle.std.specs.Io.KnownBytes.{Consumes, IsAtEnd};

use std::io;
use std::io::Read;

/// Reads into the buffer up to the end of the input or of the buffer, and says how many bytes there are; the error of a read that fails.
pub fn read_text<R: Read>(reader: &mut R, buf: &mut [u8]) -> io::Result<usize>
    ensures within { ReadsAtMost result buf.new }
    ensures bytes { IfOk result (λ n. Consumes (R.remaining reader.old) (R.remaining reader.new) (take n buf.new)) }
    ensures end { IfOk result (λ n. n < length buf.new → IsAtEnd (R.remaining reader.new)) }
{
    let mut n = 0;
    // Stays a `while`: the reads end where the input does, and not at a count.
    while n < buf.len() {
        let count = reader.read(&mut buf[n..])?;
        if count == 0 {
            break;
        }
        n += count;
    }
    Ok(n)
}
