// The gate on pairs of numbers: samples to words of variant B, and words to samples.
// A refused pair leaves as silence, so that what follows it keeps its time.
ghost use Rattle.std.specs.Prelude.{◌≡◌, ℕ, ◌<◌, ◌≤◌, true, map, replicate, pos, is_ok, if◌then◌else◌, FitsSigned, slice_index_or};
ghost use Rattle.std.specs.Int.{w16};
ghost use Rattle.std.specs.List.{All};
ghost use Rattle.words.specs.Answers.{answer};
ghost use Rattle.words.specs.Lists.{making_all, reading_all};
ghost use Rattle.words.specs.Meaning.{middle};
ghost use Rattle.words.specs.VariantB.{variant_b, gate_word};
ghost use Rattle.j41gate.specs.Trial.{moved};

use raw::PAIR;
use std::array;
use words::{VariantB, WordFault, compand, expand};

// The word of the sample 0.
const SILENT_WORD: u16 = 0b0_001_0000000_1;

// A word law's values are 32 bits wide. The sender widens a slice that it was handed by such a line too: no crate below both has samples.
pub(crate) fn widen(samples: &[i16; PAIR]) -> [i32; PAIR]
    ensures { result ≡ samples.now }
{
    array::from_fn(|i| i32::from(samples[i]))
}

// Variant B has no value that is not a sample.
fn narrow(values: &[i32; PAIR]) -> [i16; PAIR]
    requires { (i : ℕ) → i < 64 → FitsSigned w16 (slice_index_or values.now i (pos 0)) }
    ensures { result ≡ values.now }
{
    array::from_fn(|i| values[i] as i16)
}

/// The words of a pair of samples, or words of silence where a sample has none. Whoever reads the words is within 16 of
/// each sample.
pub fn encode(samples: &[i16; PAIR], words: &mut [u16; PAIR]) -> Result<(), WordFault>
    ensures answer { answer result ≡ making_all variant_b samples.now 64 }
    ensures buffer { words.new ≡ (if is_ok result then map gate_word samples.now else replicate 64 (gate_word (pos 0))) }
    ensures near { is_ok result ≡ true → All (λ v. moved variant_b v ≤ 16) samples.now }
{
    *words = [SILENT_WORD; PAIR];
    compand(&VariantB, &widen(samples), words)
}

/// The samples of a pair of words, or silence where a word belongs to none.
pub fn decode(words: &[u16; PAIR], samples: &mut [i16; PAIR]) -> Result<(), WordFault>
    ensures answer { answer result ≡ reading_all variant_b words.now 64 }
    ensures buffer { samples.new ≡ (if is_ok result then map (middle variant_b) words.now else replicate 64 (pos 0)) }
{
    let mut values = [0; PAIR];
    let outcome = expand(&VariantB, words, &mut values);
    *samples = narrow(&values);
    outcome
}
