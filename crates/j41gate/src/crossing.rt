// The gate on the octets of a raw file, a pair at a time and in place: samples to words, or words to samples.
ghost use Rattle.std.specs.Prelude.{◌≡◌, is_ok, if◌then◌else◌};
ghost use Rattle.words.specs.Answers.{answer};
ghost use Rattle.j41gate.specs.Crossing.{crossing, crossed, silence};

use crate::gate::{decode, encode};
use raw::{PAIR, PAIR_OCTETS, read_pair, write_pair};
use words::WordFault;

/// Which way sound crosses the border.
#[derive(Clone, Copy)]
pub enum Direction {
    /// From samples to words.
    Encode,
    /// From words to samples.
    Decode,
}

/// Takes a pair across. A refused pair comes out as silence.
pub fn cross(direction: Direction, octets: &mut [u8; PAIR_OCTETS]) -> Result<(), WordFault>
    ensures answer { answer result ≡ crossing direction octets.old }
    ensures buffer { octets.new ≡ (if is_ok result then crossed direction octets.old else silence direction) }
{
    // The arms differ in types and calls: one generic function would ask clauses of a closure, and be longer.
    match direction {
        Direction::Encode => {
            let mut words = [0; PAIR];
            let outcome = encode(&read_pair(octets), &mut words);
            *octets = write_pair(&words);
            outcome
        }
        Direction::Decode => {
            let mut samples = [0; PAIR];
            let outcome = decode(&read_pair(octets), &mut samples);
            *octets = write_pair(&samples);
            outcome
        }
    }
}
