// A received range word put right: the position that the locator finds is flipped back, and the two codes are read.
// Promise: what is found and the ranges of each block are those of the definitions, for whatever word arrives.
ghost use Rattle.std.specs.Prelude.{◌≡◌, ◌/◌, ◌%◌, ◌^◌, ◌≤◌};
ghost use Rattle.guards.specs.Located.{outcome, Means};
ghost use Rattle.guards.specs.RangeWord.{range_syndrome, range_word_syndrome};
ghost use Rattle.guards.specs.Mended.{range_found, mended, ranges_of_code, ranges_told, numbers_of};

use crate::codes::{CheckCode, RangeCode, range_word_syndrome};
use crate::locator::{Found, locate};
use crate::ranges::Ranges;

// The word with the position that was found flipped back.
fn flipped(word: u16, found: Found) -> u16
    requires answer { outcome found ≡ range_found word }
    requires means { Means 12 range_syndrome (range_word_syndrome word) found }
    ensures { result ≡ mended word }
{
    match found {
        Found::At(k) => word ^ 1 << (RangeCode.positions() - k),
        Found::Clean | Found::Nowhere => word,
    }
}

// The places of the lowest bits of both codes, R4 and R8.
const FIRST_CODE: u32 = 8;

const SECOND_CODE: u32 = 4;

const ALL_OF_A_CODE: u16 = 0b1111;

// The ranges of the code at a place.
fn ranges_in(word: u16, place: u32) -> Option<Ranges>
    requires { place ≤ 8 }
    ensures { numbers_of result ≡ ranges_of_code (word / 2 ^ place % 2 ^ 4) }
{
    Ranges::from_code((word >> place & ALL_OF_A_CODE) as u8)
}

/// What a received range word tells: what the locator says of it, and the ranges of block 1 and block 2, none for the unused code.
#[derive(Clone, Copy, PartialEq, Eq, Debug)]
pub struct Told {
    pub found: Found,
    pub first: Option<Ranges>,
    pub second: Option<Ranges>,
}

/// A received range word put right, and read.
pub fn mend(word: u16) -> Told
    ensures found { outcome result.found ≡ range_found word }
    ensures first { numbers_of result.first ≡ ranges_told word 1 }
    ensures second { numbers_of result.second ≡ ranges_told word 2 }
{
    let found = locate(&RangeCode, range_word_syndrome(word));
    let mended = flipped(word, found);
    Told {
        found,
        first: ranges_in(mended, FIRST_CODE),
        second: ranges_in(mended, SECOND_CODE),
    }
}
