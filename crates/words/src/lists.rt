// Companding of lists, one text for every law: values to words, and words to values. The room is measured and every
// element tried before anything is written, so a refusal leaves the output as it was.
ghost use Rattle.std.specs.Prelude.{◌≡◌, ℕ, map, length, is_ok, if◌then◌else◌};
ghost use Rattle.words.specs.Meaning.{middle};
ghost use Rattle.words.specs.Answers.{answer};
ghost use Rattle.words.specs.Lists.{Converts, first_refused, making_all, reading_all};

use crate::faults::WordFault;
use crate::law::WordLaw;

// Converts each item, or writes nothing and refuses at the first item that is refused.
fn convert<A: Copy, B: Copy, F: Fn(A) -> Result<B, WordFault>>(
    one: F,
    items: &[A],
    out: &mut [B],
) -> Result<(), WordFault>
    requires callable { F.IsAlwaysCallable one }
    requires room { length out.old ≡ length items.now }
    ensures answer { (f : A → ℕ) (g : A → B) → Converts (F.post one) f g → answer result ≡ first_refused f 0 items.now }
    ensures buffer { (f : A → ℕ) (g : A → B) → Converts (F.post one) f g → out.new ≡ (if is_ok result then map g items.now else out.old) }
{
    for (i, item) in items.iter().enumerate() {
        if let Err(fault) = one(*item) {
            return Err(fault.at(i));
        }
    }
    // All were tried, so none is refused here. By index: nothing can be proved of a slice after `iter_mut().zip(..)`.
    for (i, item) in items.iter().enumerate() {
        out[i] = one(*item)?;
    }
    Ok(())
}

/// Writes the word of each value.
pub fn compand<L: WordLaw>(law: &L, values: &[i32], words: &mut [u16]) -> Result<(), WordFault>
    ensures answer { answer result ≡ making_all (L.WordLaw.meaning law.now) values.now (length words.old) }
    ensures buffer { words.new ≡ (if is_ok result then map (L.WordLaw.meaning law.now).word values.now else words.old) }
{
    if words.len() != values.len() {
        return Err(WordFault::WordRoom(words.len()));
    }
    convert(|value| law.make(value), values, words)
}

/// Writes the value of each word.
pub fn expand<L: WordLaw>(law: &L, words: &[u16], values: &mut [i32]) -> Result<(), WordFault>
    ensures answer { answer result ≡ reading_all (L.WordLaw.meaning law.now) words.now (length values.old) }
    ensures buffer { values.new ≡ (if is_ok result then map (middle (L.WordLaw.meaning law.now)) words.now else values.old) }
{
    if values.len() != words.len() {
        return Err(WordFault::ValueRoom(values.len()));
    }
    convert(|word| law.read(word), words, values)
}
