// What a word law is: a meaning, and calls that answer by it. Whoever writes a law shows the cell rule of its meaning,
// so code that is generic in the law is proved once for all of them.
ghost use Rattle.std.specs.Prelude.{◌≡◌, ℕ};
ghost use Rattle.words.specs.Meaning.{Meaning, CellRule, Wide};
ghost use Rattle.words.specs.Answers.{answer, making, reading};

use crate::faults::WordFault;

/// A law that gives each of its values a word of a fixed length, at most 16 bits, and each word of a value its cell.
pub trait WordLaw {
    /// The word length in bits.
    const BITS: u32;

    ghost meaning: { Self → Meaning };

    /// The word length of this law, for code that is generic in the law. Laws of one type may have several.
    fn word_length(&self) -> u32
        ensures { result ≡ (meaning self.now).bits };

    /// The word of a value; refused exactly for a value outside.
    fn make(&self, value: i32) -> Result<u16, WordFault>
        ensures { answer result ≡ making (meaning self.now) value };

    /// The middle of a word's cell; refused exactly for a word of no value.
    fn read(&self, word: u16) -> Result<i32, WordFault>
        ensures { answer result ≡ reading (meaning self.now) word };

    ghost cells: { (s : Self) → CellRule (meaning s) };
}

/// A law whose type tells the word length, so that code can be generic in it: all laws of the type have this one.
pub trait FixedLength: WordLaw {
    /// The word length in bits.
    const LENGTH: u32;

    ghost LENGTH: { ℕ };

    ghost length: { (s : Self) → LENGTH ≡ (Self.WordLaw.meaning s).bits };
}

/// A law that has every sample, -8192 to 8191, among its values: what a receiver may write.
pub trait Outlet: WordLaw {
    ghost wide: { (s : Self) → Wide (Self.WordLaw.meaning s) };
}
