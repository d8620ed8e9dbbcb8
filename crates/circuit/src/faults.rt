// Why a call on pairs was refused. What a lower layer found wrong is carried whole inside.
ghost use Rattle.std.specs.Prelude.{◌≡◌};
ghost use Rattle.circuit.specs.declared.faults.PairFault.TheVariants.{Word, Frame};
ghost use Rattle.circuit.specs.Faults.{refusal_of};

use frames::FrameFault;
use words::{Layer, Refusal, WordFault};

/// Why a pair was not put, or not given.
#[derive(Clone, Copy, PartialEq, Eq, Debug)]
pub enum PairFault {
    /// The studio: another number of samples or words than 64, with that number.
    Count(usize),
    /// The studio: a value that is no sample, with the index of the first one.
    Outside(usize),
    /// Whoever lends buffers: room for another number of words than 64, with that number.
    Room(usize),
    /// A word that can't be read.
    Word(WordFault),
    /// A frame that can't be read, or a buffer that holds none.
    Frame(FrameFault),
}

impl From<WordFault> for PairFault {
    ghost from_gives = { λ e r. r ≡ Word e };

    fn from(fault: WordFault) -> PairFault {
        PairFault::Word(fault)
    }
}

impl From<FrameFault> for PairFault {
    ghost from_gives = { λ e r. r ≡ Frame e };

    fn from(fault: FrameFault) -> PairFault {
        PairFault::Frame(fault)
    }
}

/// What the user is told.
impl From<PairFault> for Refusal {
    ghost from_gives = { λ fault refusal. refusal ≡ refusal_of fault };

    fn from(fault: PairFault) -> Refusal {
        let (number, place) = match fault {
            PairFault::Count(place) => (1, place),
            PairFault::Outside(place) => (2, place),
            PairFault::Room(place) => (6, place),
            PairFault::Word(fault) => return fault.into(),
            PairFault::Frame(fault) => return fault.into(),
        };
        Refusal {
            number,
            place,
            layer: Layer::Pair,
        }
    }
}
