// The linear law: the sample itself, in 14 bits of two's complement.
ghost use Rattle.std.specs.Prelude.{refl};
ghost use Rattle.words.specs.Linear.{linear};
ghost use Rattle.words.specs.LinearRule.{linear_rule, linear_wide};

use crate::faults::WordFault;
use crate::law::{FixedLength, Outlet, WordLaw};

/// Words that are the values themselves.
#[derive(Clone, Copy)]
pub struct Linear;

const LOWEST: i32 = -8192;

const HIGHEST: i32 = 8191;

// One more than the largest word.
const WORDS: u16 = 16384;

impl WordLaw for Linear {
    const BITS: u32 = 14;

    ghost meaning = { λ _. linear };

    ghost cells = { λ _. linear_rule };

    fn word_length(&self) -> u32 {
        Self::BITS
    }

    fn make(&self, value: i32) -> Result<u16, WordFault> {
        if value < LOWEST || value > HIGHEST {
            return Err(WordFault::Outside(0));
        }
        if value >= 0 {
            Ok(value as u16)
        } else {
            Ok((value + i32::from(WORDS)) as u16)
        }
    }

    fn read(&self, word: u16) -> Result<i32, WordFault> {
        if word >= WORDS {
            return Err(WordFault::TooLong(0));
        }
        if word < WORDS / 2 {
            Ok(i32::from(word))
        } else {
            Ok(i32::from(word) - i32::from(WORDS))
        }
    }
}

impl FixedLength for Linear {
    const LENGTH: u32 = Self::BITS;

    ghost LENGTH = { 14 };

    ghost length = { λ _. refl };
}

impl Outlet for Linear {
    ghost wide = { λ _. linear_wide };
}
