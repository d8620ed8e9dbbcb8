// How the words of odd or of even samples stand for levels: as codes, so many of each sign, of a range.
// Promise: the bounds of both are part of the type, so every word that such samples have is a level.
ghost use Rattle.std.specs.Prelude.{◌≡◌, ℕ, ◌+◌, ◌*◌, ◌^◌, ◌<◌, ◌≤◌, pos, slice_index, slice_index_or};
ghost use Rattle.std.specs.Int.Signed.{mag};
ghost use Rattle.decoder.specs.Levels.{code_of, level};

use crate::level::Level;
use blocks::HALF;
use guards::ranges::Ranges;
use std::array;

#[derive(Clone, Copy)]
pub(crate) struct Scale {
    half: u16,
    range: u8,
    ghost few_codes: { half ≤ 512 },
    ghost narrow: { range ≤ 6 },
}

impl Scale {
    // Of the odd samples of a block of these ranges, with 512 codes of each sign.
    pub(crate) fn odd(ranges: Ranges) -> Scale
        ensures half { result.half ≡ 512 }
        ensures range { result.range ≡ ranges.basic }
    {
        Scale {
            half: 512,
            range: ranges.basic(),
        }
    }

    // Of its even samples, with 256.
    pub(crate) fn even(ranges: Ranges) -> Scale
        ensures half { result.half ≡ 256 }
        ensures range { result.range ≡ ranges.basic + ranges.additional }
    {
        Scale {
            half: 256,
            range: ranges.basic() + ranges.additional(),
        }
    }

    // The code that a word carries.
    fn code_of(self, word: u16) -> i32
        requires { word < 2 * self.half }
        ensures value { result ≡ code_of self.half word }
        ensures small { mag result < self.half }
    {
        if word < self.half {
            i32::from(word)
        } else {
            -1 - i32::from(word - self.half)
        }
    }

    // The level of the code that a word carries.
    pub(crate) fn level_of(self, word: u16) -> Level
        requires { word < 2 * self.half }
        ensures value { result ≡ level self.range (code_of self.half word) }
        ensures basic { self.range ≤ 4 → mag result < 2 ^ 15 }
    {
        Level::new((2 * self.code_of(word) + 1) << (self.range + 1))
    }

    // The levels of sixteen words.
    pub(crate) fn levels_of(self, words: &[u16; HALF]) -> [Level; HALF]
        requires { (k : ℕ) → slice_index words.now k < 2 * self.half }
        ensures { (k : ℕ) → k < 16 → slice_index_or result k (pos 0) ≡ level self.range (code_of self.half (slice_index words.now k)) }
    {
        array::from_fn(|i| self.level_of(words[i]))
    }
}
