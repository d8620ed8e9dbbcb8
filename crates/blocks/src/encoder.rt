// The encoder of a block: both ranges, then the words of the odd samples and of the differences under the laws of these ranges,
// each made once. The ranges hold every value that is given a word, so nothing is ever refused here.
ghost use Rattle.std.specs.Prelude.{◌≡◌, ℕ, ◌^◌, ◌<◌, map, pos, slice_index, slice_index_or};
ghost use Rattle.words.specs.Meaning.{Inside};
ghost use Rattle.words.specs.Signed.{basic, additional};
ghost use Rattle.blocks.specs.Ranges.{Ranged, differences};
ghost use Rattle.blocks.specs.Coding.{code_of, coded, odd_samples};

use crate::block::Block;
use crate::coded::{CodedBlock, HALF, Words};
use crate::search::{differences, ranges_with};
use std::array;
use words::{Additional, Basic, WordLaw};

// The samples 1, 3 .. 31.
fn odd_samples(block: &Block) -> [i32; HALF]
    ensures { result ≡ odd_samples block.now.samples }
{
    array::from_fn(|i| block.samples[2 * i])
}

// The word of a value that the law holds.
fn word_of<L: WordLaw>(law: &L, value: i32) -> u16
    requires { Inside (L.WordLaw.meaning law.now) value }
    ensures { result ≡ (L.WordLaw.meaning law.now).word value }
{
    law.make(value).unwrap()
}

// The words of sixteen values that the law holds.
fn words_of<L: WordLaw, const BITS: u32>(law: &L, values: &[i32; HALF]) -> Words<BITS>
    requires bits { (L.WordLaw.meaning law.now).bits ≡ BITS }
    requires inside { (k : ℕ) → k < 16 → Inside (L.WordLaw.meaning law.now) (slice_index_or values.now k (pos 0)) }
    ensures { result.words ≡ map (L.WordLaw.meaning law.now).word values.now }
{
    Words {
        words: array::from_fn(|i| word_of(law, values[i])),
    }
}

/// A block's ranges and words.
pub fn encode(block: &Block) -> CodedBlock
    ensures value { code_of result ≡ coded block.now.samples }
    ensures smallest { Ranged block.now.samples result.ranges.basic result.ranges.additional }
{
    let diffs = differences(block);
    let ranges = ranges_with(block, &diffs);
    let basic = Basic::new(ranges.basic()).unwrap();
    let additional = Additional::new(ranges.basic(), ranges.additional()).unwrap();
    CodedBlock {
        ranges,
        odd: words_of(&basic, &odd_samples(block)),
        even: words_of(&additional, &diffs),
    }
}
