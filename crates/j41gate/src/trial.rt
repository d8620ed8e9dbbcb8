// A trial of the gate: a pair goes over to words and comes back, and the trial says how far that moved its samples.
// It is written for any word law; the cell rule says that what was made is read again.
ghost use Rattle.std.specs.Prelude.{◌≡◌};
ghost use Rattle.words.specs.Answers.{answer};
ghost use Rattle.j41gate.specs.Trial.{distances, largest, passing};

use crate::gate::widen;
use raw::PAIR;
use words::{WordFault, WordLaw, compand, expand};

// The largest distance between two values at the same place.
fn farthest(values: &[i32; PAIR], back: &[i32; PAIR]) -> u32
    ensures { result ≡ largest (distances values.now back.now) }
{
    let mut most = 0u32;
    for (value, read) in values.iter().zip(back) {
        most = most.max(value.abs_diff(*read));
    }
    most
}

/// The largest distance between a sample and what its word is read as; refused where a sample has no word.
pub fn pass<L: WordLaw>(law: &L, samples: &[i16; PAIR]) -> Result<u32, WordFault>
    ensures { answer result ≡ passing (L.WordLaw.meaning law.now) samples.now }
{
    let values = widen(samples);
    let mut words = [0; PAIR];
    compand(law, &values, &mut words)?;
    let mut back = [0; PAIR];
    expand(law, &words, &mut back)?;
    Ok(farthest(&values, &back))
}
