// What was done, counted pair by pair, and the line in which it is told.
ghost use Rattle.std.specs.Prelude.{◌≡◌, ◌^◌, ◌<◌, Some};
ghost use Rattle.j43send.specs.Counts.{fresh, noted, Within, line};

use circuit::Sent;
use std::fmt;
use telling::Outcome;

/// The counts so far.
#[derive(Clone, Copy)]
pub struct Counts {
    /// The complete pairs of the input.
    pub pairs: u64,
    /// The frames sent.
    pub frames: u64,
    /// The pairs that were refused.
    pub refused: u64,
}

impl Counts {
    /// Nothing done yet.
    pub fn new() -> Counts
        ensures { result ≡ fresh }
    {
        Counts {
            pairs: 0,
            frames: 0,
            refused: 0,
        }
    }

    /// Counts a pair by what became of it.
    // `Within` is no ghost field, since the frames after the last pair come on top.
    pub(crate) fn note(&mut self, outcome: &Outcome<Sent>)
        requires few_pairs { self.old.pairs < 2 ^ 57 }
        requires within { Within self.old }
        ensures counts { self.new ≡ noted self.old outcome.now }
        ensures within { Within self.new }
    {
        self.pairs += 1;
        if let Sent::Written = outcome.done {
            self.frames += 1;
        }
        if outcome.refused.is_some() {
            self.refused += 1;
        }
    }
}

impl fmt::Display for Counts {
    ghost output = { λ c. Some (line c) };

    fn fmt<W: fmt::Write>(&self, f: &mut fmt::Formatter<W>) -> fmt::Result {
        let Counts {
            pairs,
            frames,
            refused,
        } = *self;
        write!(f, "pairs {pairs} frames {frames} refused {refused}")
    }
}
