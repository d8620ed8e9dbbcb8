// The laws that the receiver of the console's circuit can give words of, by their names: `linear` and `j41b`.
ghost use Rattle.console.specs.Laws.{outlet_meaning, outlet_rule, outlet_wide};

use crate::faults::ConsoleFault;
use std::str::FromStr;
use words::{Linear, Outlet, VariantB, WordFault, WordLaw};

#[derive(Clone, Copy)]
pub enum OutletLaw {
    Linear,
    VariantB,
}

impl FromStr for OutletLaw {
    type Err = ConsoleFault;

    fn from_str(name: &str) -> Result<OutletLaw, ConsoleFault> {
        match name {
            "linear" => Ok(OutletLaw::Linear),
            "j41b" => Ok(OutletLaw::VariantB),
            _ => Err(ConsoleFault::NoCommand),
        }
    }
}

impl WordLaw for OutletLaw {
    // The longest; each law tells its own by `word_length`.
    const BITS: u32 = Linear::BITS;

    ghost meaning = { outlet_meaning };

    ghost cells = { outlet_rule };

    fn word_length(&self) -> u32 {
        match self {
            OutletLaw::Linear => Linear.word_length(),
            OutletLaw::VariantB => VariantB.word_length(),
        }
    }

    // Asked to be put in place, since each number of a list of words is made by it, twice.
    #[inline(always)]
    fn make(&self, value: i32) -> Result<u16, WordFault> {
        match self {
            OutletLaw::Linear => Linear.make(value),
            OutletLaw::VariantB => VariantB.make(value),
        }
    }

    #[inline(always)]
    fn read(&self, word: u16) -> Result<i32, WordFault> {
        match self {
            OutletLaw::Linear => Linear.read(word),
            OutletLaw::VariantB => VariantB.read(word),
        }
    }
}

impl Outlet for OutletLaw {
    ghost wide = { outlet_wide };
}
