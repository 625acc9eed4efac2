// Reads an input into an array. No more is read than the array holds, so an input without an end does no harm.
#![tactic(auto)]

ghost use Rattle.std.specs.Prelude.{◌<◌, length, take, IfOk};
ghost use Rattle.std.specs.Io.{ReadsAtMost};
ghost use Rattle.std.specs.Io.KnownBytes.{Consumes, IsAtEnd};

use std::io;
use std::io::Read;

// Reads until the array is full or the input ends, and answers how many bytes stand at the array's front.
pub fn read_full<R: Read>(reader: &mut R, array: &mut [u8]) -> io::Result<usize>
    ensures bound { ReadsAtMost result array.new }
    ensures bytes { IfOk result (λ n. Consumes (R.remaining reader.old) (R.remaining reader.new) (take n array.new)) }
    ensures end { IfOk result (λ n. n < length array.new → IsAtEnd (R.remaining reader.new)) }
{
    let mut done = 0;
    while done < array.len() {
        let n = reader.read(&mut array[done..])?;
        if n == 0 {
            break;
        }
        done += n;
    }
    Ok(done)
}
