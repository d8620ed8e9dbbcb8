// A word law by its name on the console: an outlet's, `basic:R` or `add:R:A`. It makes and reads the words of the law named.
ghost use Rattle.console.specs.Laws.{law_meaning, law_rule};

use crate::faults::ConsoleFault;
use crate::outlet::OutletLaw;
use std::str::FromStr;
use words::{Additional, Basic, Linear, WordFault, WordLaw};

#[derive(Clone, Copy)]
pub enum Law {
    Outlet(OutletLaw),
    Basic(Basic),
    Additional(Additional),
}

fn basic(range: &str) -> Result<Law, ConsoleFault> {
    let law = Basic::new(range.parse()?).ok_or(ConsoleFault::NoCommand)?;
    Ok(Law::Basic(law))
}

fn additional(ranges: &str) -> Result<Law, ConsoleFault> {
    let (basic, range) = ranges.split_once(':').ok_or(ConsoleFault::NoCommand)?;
    let law = Additional::new(basic.parse()?, range.parse()?).ok_or(ConsoleFault::NoCommand)?;
    Ok(Law::Additional(law))
}

impl FromStr for Law {
    type Err = ConsoleFault;

    fn from_str(name: &str) -> Result<Law, ConsoleFault> {
        match name.split_once(':') {
            Some(("basic", range)) => basic(range),
            Some(("add", ranges)) => additional(ranges),
            _ => Ok(Law::Outlet(name.parse()?)),
        }
    }
}

impl WordLaw for Law {
    // The longest; each law tells its own by `word_length`.
    const BITS: u32 = Linear::BITS;

    ghost meaning = { law_meaning };

    ghost cells = { law_rule };

    fn word_length(&self) -> u32 {
        match self {
            Law::Outlet(law) => law.word_length(),
            Law::Basic(law) => law.word_length(),
            Law::Additional(law) => law.word_length(),
        }
    }

    // Asked to be put in place, since each number of a list of words is made by it, twice.
    #[inline(always)]
    fn make(&self, value: i32) -> Result<u16, WordFault> {
        match self {
            Law::Outlet(law) => law.make(value),
            Law::Basic(law) => law.make(value),
            Law::Additional(law) => law.make(value),
        }
    }

    #[inline(always)]
    fn read(&self, word: u16) -> Result<i32, WordFault> {
        match self {
            Law::Outlet(law) => law.read(word),
            Law::Basic(law) => law.read(word),
            Law::Additional(law) => law.read(word),
        }
    }
}
