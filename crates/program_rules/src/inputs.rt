// The input of a program, read into a space.
ghost use Rattle.std.specs.Prelude.{◌<◌, ◌≤◌, OnOk, length, take};
ghost use Rattle.std.specs.Io.KnownBytes.{Consumes, IsAtEnd};

use std::io;
use std::io::Read;

// Reads until the space is full, the input ends or a read fails. Gives how many bytes it put at the front of the space, and
// the error of a read that failed: both, for the bytes before a failed read count.
pub fn read_full<R: Read>(reader: &mut R, space: &mut [u8]) -> (usize, io::Result<()>)
    ensures within { result.0 ≤ length space.new }
    ensures bytes { Consumes (R.remaining reader.old) (R.remaining reader.new) (take result.0 space.new) }
    ensures whole { OnOk result.1 (result.0 < length space.new → IsAtEnd (R.remaining reader.new)) }
{
    let mut done = 0;
    // no iterator: each read says how far it came
    while done < space.len() {
        match reader.read(&mut space[done..]) {
            Ok(0) => return (done, Ok(())),
            Ok(n) => done += n,
            Err(e) => return (done, Err(e)),
        }
    }
    (done, Ok(()))
}
