// The basic law of odd samples and the additional law of differences, by their ranges. The bounds on the ranges are part
// of the types, so neither law has anything to ask.
ghost use Rattle.std.specs.Prelude.{◌≡◌, refl, ◌+◌, ◌<◌, ◌≤◌, MatchOption};
ghost use Rattle.words.specs.Signed.{basic, additional};
ghost use Rattle.words.specs.SignRule.{basic_rule, additional_rule};

use crate::faults::WordFault;
use crate::law::{FixedLength, WordLaw};
use crate::signed::{make_signed, read_signed};

// Half the words of each law: the codes of one sign.
const BASIC_HALF: u32 = 512;

const ADDITIONAL_HALF: u32 = 256;

/// The basic law: 10 bits, width 2^r, for a basic range r of 0 to 4.
#[derive(Clone, Copy)]
pub struct Basic {
    range: u8,
    ghost bound: { range ≤ 4 },
}

impl Basic {
    /// The law of a range; none above 4.
    pub fn new(range: u8) -> Option<Basic>
        ensures { MatchOption result (4 < range) (λ law. (range ≤ 4) × (law.range ≡ range)) }
    {
        if range <= 4 {
            Some(Basic { range })
        } else {
            None
        }
    }
}

impl WordLaw for Basic {
    const BITS: u32 = 10;

    ghost meaning = { λ s. basic s.range };

    ghost cells = { λ s. basic_rule s.range };

    fn word_length(&self) -> u32 {
        Self::BITS
    }

    fn make(&self, value: i32) -> Result<u16, WordFault> {
        make_signed(BASIC_HALF, self.range, value)
    }

    fn read(&self, word: u16) -> Result<i32, WordFault> {
        read_signed(BASIC_HALF, self.range, word)
    }
}

impl FixedLength for Basic {
    const LENGTH: u32 = Self::BITS;

    ghost LENGTH = { 10 };

    ghost length = { λ _. refl };
}

/// The additional law: 9 bits, width 2^(r+a+1) in half sample units, for a basic range r of 0 to 4 and an additional
/// range a of 0 to 2.
#[derive(Clone, Copy)]
pub struct Additional {
    basic_range: u8,
    range: u8,
    ghost basic_bound: { basic_range ≤ 4 },
    ghost bound: { range ≤ 2 },
}

impl Additional {
    /// The law of a basic and an additional range; none above 4 and 2.
    pub fn new(basic_range: u8, range: u8) -> Option<Additional>
        ensures { MatchOption result (basic_range ≤ 4 → 2 < range) (λ law. (law.basic_range ≡ basic_range) × (law.range ≡ range)) }
    {
        if basic_range <= 4 && range <= 2 {
            Some(Additional { basic_range, range })
        } else {
            None
        }
    }

    // The width is two to this power.
    fn exponent(&self) -> u8
        ensures value { result ≡ self.now.basic_range + self.now.range + 1 }
        ensures small { result ≤ 7 }
    {
        self.basic_range + self.range + 1
    }
}

impl WordLaw for Additional {
    const BITS: u32 = 9;

    ghost meaning = { λ s. additional s.basic_range s.range };

    ghost cells = { λ s. additional_rule s.basic_range s.range };

    fn word_length(&self) -> u32 {
        Self::BITS
    }

    fn make(&self, value: i32) -> Result<u16, WordFault> {
        make_signed(ADDITIONAL_HALF, self.exponent(), value)
    }

    fn read(&self, word: u16) -> Result<i32, WordFault> {
        read_signed(ADDITIONAL_HALF, self.exponent(), word)
    }
}

impl FixedLength for Additional {
    const LENGTH: u32 = Self::BITS;

    ghost LENGTH = { 9 };

    ghost length = { λ _. refl };
}
