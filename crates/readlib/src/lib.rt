// What programs read: a stream into a buffer, until one of the two ends. Assumes nothing. How many
// bytes are read is proved to be within the buffer; which bytes they are, the system says.
#![tactic(auto)]

ghost use Rattle.std.specs.Prelude.{◌≤◌, length, IfOk};

use std::io;
use std::io::Read;

// The bytes of a large buffer.
pub const LARGE: usize = 65536;

// Reads until buf is full or the input ends, and returns how many bytes it put at the start of buf.
// On an empty buf it makes no call.
pub fn read_full<R: Read>(from: &mut R, buf: &mut [u8]) -> io::Result<usize>
    ensures { IfOk result (λ n. n ≤ length buf.new) }
{
    let mut done = 0;
    while done < buf.len() {
        let n = from.read(&mut buf[done..])?;
        if n == 0 {
            break;
        }
        done += n;
    }
    Ok(done)
}
