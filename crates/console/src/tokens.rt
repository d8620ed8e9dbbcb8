// The words of a line, one space apart, taken from the front and read as what a command wants there.
use crate::faults::ConsoleFault;
use linelog::PairNumber;
use std::alloc::Global;
use std::array;
use std::str::{FromStr, Split};

// The longest buffer that a command may ask for.
const LONGEST: usize = 65536;

#[derive(Drop)]
pub struct Tokens<'a> {
    heap: Global,
    words: Split<'a, char>,
}

// The value of a hexadecimal digit. By hand, since the library's readers take upper case too.
fn digit(byte: u8) -> Result<u8, ConsoleFault> {
    match byte {
        b'0'..=b'9' => Ok(byte - b'0'),
        b'a'..=b'f' => Ok(byte - b'a' + 10),
        _ => Err(ConsoleFault::NoCommand),
    }
}

// The octet of two digits.
fn octet(digits: &[u8]) -> Result<u8, ConsoleFault> {
    match digits {
        [high, low] => Ok(digit(*high)? << 4 | digit(*low)?),
        _ => Err(ConsoleFault::NoCommand),
    }
}

impl<'a> Tokens<'a> {
    pub(crate) fn new(heap: Global, line: &'a str) -> Tokens<'a> {
        Tokens {
            heap,
            words: line.split(' '),
        }
    }

    pub(crate) fn word(&mut self) -> Result<&'a str, ConsoleFault> {
        self.words.next().ok_or(ConsoleFault::NoCommand)
    }

    // A word as a number that fits its type, a law or an outlet.
    pub(crate) fn parse<T: FromStr>(&mut self) -> Result<T, ConsoleFault>
    where
        ConsoleFault: From<T::Err>,
    {
        Ok(self.word()?.parse()?)
    }

    // The length of a buffer.
    pub(crate) fn room(&mut self) -> Result<usize, ConsoleFault> {
        match self.parse()? {
            room if room <= LONGEST => Ok(room),
            _ => Err(ConsoleFault::NoCommand),
        }
    }

    // A count, and as many numbers.
    pub(crate) fn numbers<T: FromStr + Drop>(&mut self) -> Result<Vec<T>, ConsoleFault>
    where
        ConsoleFault: From<T::Err>,
    {
        let heap = self.heap;
        let count = self.parse::<usize>()?;
        (0..count).map(|_| self.parse()).try_collect(heap)
    }

    // The numbers of a circuit and of a pair.
    pub(crate) fn pair_number(&mut self) -> Result<PairNumber, ConsoleFault> {
        Ok(PairNumber {
            circuit: self.parse()?,
            pair: self.parse()?,
        })
    }

    // Thirty-three samples: a block and its follower.
    pub(crate) fn samples(&mut self) -> Result<[i32; 33], ConsoleFault> {
        array::try_from_fn(|_| Ok(i32::from(self.parse::<i16>()?)))
    }

    // So many bits, at most 32, the first one highest. The library's reader would take a sign too, and testing the digits before it
    // reads them was a fifth of a guard line's cost.
    pub(crate) fn bits(&mut self, count: usize) -> Result<u32, ConsoleFault> {
        let word = self.word()?;
        if word.len() != count {
            return Err(ConsoleFault::NoCommand);
        }
        word.bytes().try_fold(0, |bits, byte| match byte {
            b'0' => Ok(bits << 1),
            b'1' => Ok(bits << 1 | 1),
            _ => Err(ConsoleFault::NoCommand),
        })
    }

    // Octets of two digits each, or a dash for none.
    pub(crate) fn octets(&mut self) -> Result<Vec<u8>, ConsoleFault> {
        match self.word()? {
            "-" => Ok(Vec::new(self.heap)),
            "" => Err(ConsoleFault::NoCommand),
            digits => digits
                .as_bytes()
                .chunks(2)
                .map(octet)
                .try_collect(self.heap),
        }
    }

    pub(crate) fn is_spent(&mut self) -> bool {
        self.words.next().is_none()
    }
}
