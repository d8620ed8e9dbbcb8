// The complete units of an input, be they pairs of a raw file or frames of the line, one after the other: each is handed
// out before more is read, so that a live stream is answered as it comes.
ghost use Rattle.std.specs.Prelude.{◌≡◌, ◌<◌, MatchOption};

use crate::stream::fill;
use std::io;
use std::io::Read;

/// An input read in units of `N` octets.
#[derive(Drop)]
pub struct Units<R, const N: usize> {
    input: R,
    short: usize,
}

impl<R: Read, const N: usize> Units<R, N> {
    /// The units of an input of which nothing was read.
    pub fn new(input: R) -> Units<R, N>
        ensures input { result.input ≡ input }
        ensures short { result.short ≡ 0 }
    {
        Units { input, short: 0 }
    }

    /// How many octets came after the last complete unit, once the input has ended.
    pub fn short(&self) -> usize
        ensures { result ≡ self.now.short }
    {
        self.short
    }
}

impl<R: Read + Drop, const N: usize> Iterator for Units<R, N> {
    type Item = io::Result<[u8; N]>;

    // Where the input ends, fewer octets than a unit are left; before that, none are.
    ghost next_gives = { λ s unit t. MatchOption unit (t.short < N) (λ _. t.short ≡ s.short) };

    fn next(&mut self) -> Option<io::Result<[u8; N]>> {
        let mut unit = [0; N];
        match fill(&mut self.input, &mut unit) {
            Ok(got) if got < N => {
                self.short = got;
                None
            }
            Ok(_) => Some(Ok(unit)),
            Err(error) => Some(Err(error)),
        }
    }

    // Nothing is known before the input has ended.
    fn size_hint(&self) -> (usize, Option<usize>) {
        (0, None)
    }
}
