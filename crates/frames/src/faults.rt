// Why a frame was refused, and the refusal that a user sees of it.
ghost use Rattle.std.specs.Prelude.{◌≡◌};
ghost use Rattle.frames.specs.Faults.{refusal_of};

use words::{Layer, Refusal};

/// Why a frame was not written or not read.
#[derive(Clone, Copy, PartialEq, Eq, Debug)]
pub enum FrameFault {
    /// The line: a frame of another length than 80 octets, with that length.
    Length(usize),
    /// The line: a frame whose 640 bits are all 1, as where nothing is sent.
    AllOnes,
    /// Whoever lends buffers: room for another number of octets than 80, with that number.
    Room(usize),
}

/// What the user is told.
impl From<FrameFault> for Refusal {
    ghost from_gives = { λ fault refusal. refusal ≡ refusal_of fault };

    fn from(fault: FrameFault) -> Refusal {
        let (number, place) = match fault {
            FrameFault::Length(length) => (3, length),
            FrameFault::AllOnes => (4, 0),
            FrameFault::Room(length) => (5, length),
        };
        Refusal {
            number,
            place,
            layer: Layer::Frame,
        }
    }
}
