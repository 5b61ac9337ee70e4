// Standard input, or another reader, read to its end. A failed read is told from the end of the input. What does not fit is read all the same
// and dropped, so that the writer of a pipe is not cut off.
#![tactic(auto)]

ghost use Rattle.std.specs.Prelude.{◌≤◌, IfOk, length};

use std::io;
use std::io::{ErrorKind, Read};

// One read, with all the room there is, made again where a signal interrupted it. Not `io::copy`, which reads into a room of its own, 8,192 bytes: of
// a longer message, as a socket hands it over in one read, the rest would be lost. A proved loop has to end, and nothing says that signals do: so
// it counts its turns, up to a number that no run uses up.
fn read_once(source: &mut impl Read, buf: &mut [u8]) -> io::Result<usize>
    ensures { IfOk result (λ n. n ≤ length buf.old) }
{
    for _ in 0..u64::MAX {
        match source.read(buf) {
            Err(error) if error.kind() == ErrorKind::Interrupted => {}
            got => return got,
        }
    }
    Err(ErrorKind::TimedOut.into())
}

// Fills the buffer from its front, and drops what does not fit; how much of the buffer is held.
pub fn read_input(source: &mut impl Read, buf: &mut [u8]) -> io::Result<usize>
    ensures { IfOk result (λ n. n ≤ length buf.old) }
{
    let mut held = 0;
    while held < buf.len() {
        let more = read_once(source, &mut buf[held..])?;
        if more == 0 {
            return Ok(held);
        }
        held += more;
    }
    io::copy(source, &mut io::sink())?;
    Ok(held)
}
