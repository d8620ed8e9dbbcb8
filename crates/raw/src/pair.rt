// A pair of a raw file: 64 numbers in 128 octets, one text for samples and words.
// What `write_pair` wrote is read back as the same numbers.
ghost use Rattle.std.specs.Prelude.{◌≡◌, map};
ghost use Rattle.raw.specs.Octets.{numbers_in, octets_in};

use crate::number::RawNumber;
use std::array;

/// The numbers of a pair: two blocks of 32.
pub const PAIR: usize = 64;

/// The octets of a pair.
pub const PAIR_OCTETS: usize = 2 * PAIR;

/// The numbers that the octets of a pair stand for.
pub fn read_pair<N: RawNumber>(octets: &[u8; PAIR_OCTETS]) -> [N; PAIR]
    ensures { result ≡ map N.RawNumber.value (numbers_in octets.now) }
{
    array::from_fn(|i| N::from_octets([octets[2 * i], octets[2 * i + 1]]))
}

/// The octets of a pair of numbers, from which they are read again.
pub fn write_pair<N: RawNumber>(numbers: &[N; PAIR]) -> [u8; PAIR_OCTETS]
    ensures answer { result ≡ octets_in (map N.RawNumber.bits numbers.now) }
    ensures back { map N.RawNumber.value (numbers_in result) ≡ numbers.now }
{
    let mut octets = [0; PAIR_OCTETS];
    // Tried by `array::from_fn`: a generic closure's body tells the check nothing, so it needs clauses longer than this loop.
    for i in 0..PAIR {
        let [high, low] = numbers[i].octets();
        octets[2 * i] = high;
        octets[2 * i + 1] = low;
    }
    octets
}
