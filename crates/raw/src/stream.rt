// Reading of an input that may come in pieces, as a live stream does: a unit, be it a pair of a raw file or a frame of
// the line, can be answered as soon as it is there.
ghost use Rattle.std.specs.Prelude.{◌≤◌, length, IfOk};

use std::io;
use std::io::Read;

/// Fills the buffer as far as the input goes, joining short reads, and says how far: fewer octets than the buffer has
/// only where the input has ended.
pub fn fill(input: &mut impl Read, buffer: &mut [u8]) -> io::Result<usize>
    ensures small { IfOk result (λ n. n ≤ length buffer.old) }
{
    let mut got = 0;
    // A loop by hand: std's `read_exact` leaves open how much of an incomplete unit it read.
    while got < buffer.len() {
        let more = input.read(&mut buffer[got..])?;
        if more == 0 {
            break;
        }
        got += more;
    }
    Ok(got)
}
