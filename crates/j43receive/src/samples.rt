// The samples that the receiver's words stand for, as octets of a raw file.
ghost use Rattle.std.specs.Prelude.{◌≡◌, ◌^◌, ◌<◌, map, ℤ};
ghost use Rattle.std.specs.Int.Signed.{mag};
ghost use Rattle.words.specs.Linear.{linear};
ghost use Rattle.j43receive.specs.Samples.{sample_of, sample_octets};

use raw::{PAIR, PAIR_OCTETS, write_pair};
use std::array;
use words::{Linear, WordLaw};

// The sample of a word. A receiver gives words of samples only, and each is read as its own sample.
fn sample(word: u16) -> i16
    ensures value { result ≡ sample_of word }
    ensures own { (v : ℤ) → mag v < 2 ^ 13 → word ≡ linear.word v → result ≡ v }
{
    Linear.read(word).unwrap_or(0) as i16
}

/// The octets of a pair of words' samples.
pub fn sound(words: &[u16; PAIR]) -> [u8; PAIR_OCTETS]
    ensures { result ≡ sample_octets (map sample_of words.now) }
{
    // By place: `words.map(sample)` was tried, and its loop was a seventh of a run.
    write_pair(&array::from_fn(|i| sample(words[i])))
}
