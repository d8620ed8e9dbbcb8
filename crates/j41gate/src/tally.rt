// What the trials of many pairs come to: counts and the largest distance, and the lines in which they are reported.
ghost use Rattle.std.specs.Prelude.{◌≡◌, ◌*◌, ◌^◌, ◌<◌, ◌≤◌, Some};
ghost use Rattle.j41gate.specs.Tally.{fresh, noted, report};

use raw::PAIR;
use std::fmt;
use words::{WordFault, WordLaw};

/// The counts so far.
#[derive(Clone, Copy)]
pub struct Tally {
    /// The word length of the law.
    pub bits: u32,
    /// All pairs tried.
    pub pairs: u64,
    /// The words made; a refused pair has none.
    pub words: u64,
    /// The pairs among them that were refused.
    pub refused: u64,
    /// The largest distance between a sample and what its word is read as.
    pub distance: u32,
}

impl Tally {
    /// Nothing tried yet.
    pub fn new<L: WordLaw>(law: &L) -> Tally
        ensures { result ≡ fresh (L.WordLaw.meaning law.now).bits }
    {
        Tally {
            bits: law.word_length(),
            pairs: 0,
            words: 0,
            refused: 0,
            distance: 0,
        }
    }

    /// Counts a pair by the outcome of its trial.
    // Asked here and not held by ghost fields: tried, and each tally that `noted` writes down had to carry proofs.
    pub(crate) fn note(&mut self, outcome: Result<u32, WordFault>)
        requires few_pairs { self.old.pairs < 2 ^ 57 }
        requires few_words { self.old.words ≤ 64 * self.old.pairs }
        requires few_refused { self.old.refused ≤ self.old.pairs }
        ensures { self.new ≡ noted self.old outcome }
    {
        self.pairs += 1;
        match outcome {
            Ok(distance) => {
                self.words += PAIR as u64;
                self.distance = self.distance.max(distance);
            }
            Err(_) => self.refused += 1,
        }
    }
}

/// The report: a line for each count, the label first.
impl fmt::Display for Tally {
    ghost output = { λ t. Some (report t) };

    fn fmt<W: fmt::Write>(&self, f: &mut fmt::Formatter<W>) -> fmt::Result {
        let Tally {
            bits,
            pairs,
            words,
            refused,
            distance,
        } = *self;
        write!(
            f,
            "pairs {pairs}\nwords {words}\nbits {bits}\nrefused {refused}\ndistance {distance}"
        )
    }
}
