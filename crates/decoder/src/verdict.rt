// What is found of a block as a whole: by this the report tells of it, and its samples are given, concealed or muted.
// Promise: each verdict has the word and the number of the log.
ghost use Rattle.std.specs.Prelude.{◌≡◌};
ghost use Rattle.decoder.specs.Findings.{finding, word_of, number_of};

use std::fmt;

/// Why a block is muted, in the order in which the causes are looked for.
#[derive(Clone, Copy, PartialEq, Eq, Debug)]
pub enum Cause {
    /// A frame that carries a part of it is lost.
    Lost,
    /// No single hit explains its range word.
    RangeWord,
    /// Its range code, corrected, is the unused one.
    NoRanges,
    /// No single hit explains its parities and checks.
    Guards,
}

/// What is found of a block.
#[derive(Clone, Copy, PartialEq, Eq, Debug)]
pub enum Verdict {
    /// Silence: too much is lost or hurt.
    Mute(Cause),
    /// Nothing is hurt that is guarded.
    Clean,
    /// Check bit 1 to 5 is hurt, and no sample.
    Check(u8),
    /// The odd sample of this number is hurt.
    Odd(u8),
    /// A sample of this even pair, 1 to 8, is hurt: both are concealed, samples 4j - 2 and 4j of pair j.
    Pair(u8),
}

impl Verdict {
    /// The word that a log prints.
    pub fn word(&self) -> &'static str
        ensures { result.now ≡ word_of (finding self.now) }
    {
        match self {
            Verdict::Mute(_) => "mute",
            Verdict::Clean => "clean",
            Verdict::Check(_) => "check",
            Verdict::Odd(_) => "odd",
            Verdict::Pair(_) => "pair",
        }
    }

    /// The number after it, 0 for clean.
    pub fn number(&self) -> u8
        ensures { result ≡ number_of (finding self.now) }
    {
        match *self {
            Verdict::Mute(Cause::Lost) => 1,
            Verdict::Mute(Cause::RangeWord) => 2,
            Verdict::Mute(Cause::NoRanges) => 3,
            Verdict::Mute(Cause::Guards) => 4,
            Verdict::Clean => 0,
            Verdict::Check(number) | Verdict::Odd(number) | Verdict::Pair(number) => number,
        }
    }
}

impl fmt::Display for Verdict {
    ghost use Rattle.std.specs.Prelude.{Some};
    ghost use Rattle.decoder.specs.Findings.{finding, text_of};

    ghost output = { λ verdict. Some (text_of (finding verdict)) };

    fn fmt<W: fmt::Write>(&self, f: &mut fmt::Formatter<W>) -> fmt::Result {
        write!(f, "{} {}", self.word(), self.number())
    }
}
