// Why a log was refused, and the refusal that a user sees of it.
// Promise: each fault has the number, the place and the layer that the definitions give it.
ghost use Rattle.std.specs.Prelude.{◌≡◌};
ghost use Rattle.linelog.specs.Faults.{refusal_of};

use words::{Layer, Refusal};

/// Why the lines of a pair were not written.
#[derive(Clone, Copy, PartialEq, Eq, Debug)]
pub enum LogFault {
    /// Whoever lends buffers: room for another number of octets than 96, with that number.
    Room(usize),
    /// Whoever numbers circuits: a number above the highest that a log tells.
    Circuit,
    /// Whoever numbers pairs: a number above the highest that a log tells.
    Pair,
}

/// What the user is told.
impl From<LogFault> for Refusal {
    ghost from_gives = { λ fault refusal. refusal ≡ refusal_of fault };

    fn from(fault: LogFault) -> Refusal {
        let (number, place) = match fault {
            LogFault::Room(octets) => (6, octets),
            LogFault::Circuit => (10, 0),
            LogFault::Pair => (10, 1),
        };
        Refusal {
            number,
            place,
            layer: Layer::Log,
        }
    }
}
