// Coding a pair: both blocks are encoded, and guarded by the range word and by five checks each.
ghost use Rattle.std.specs.Prelude.{◌≡◌};
ghost use Rattle.frames.specs.Content.{coded, word_in};
ghost use Rattle.guards.specs.Division.{checks_of};
ghost use Rattle.guards.specs.Parities.{parities};
ghost use Rattle.pairs.specs.Sending.{first_block, second_block, sent_pair};

use crate::pair::Pair;
use blocks::{BLOCK, Block, CodedBlock, encode};
use frames::{CodedPair, GuardedBlock};
use guards::codes::{checks, range_word};
use guards::parities::parities;

impl Pair {
    // The first block, which the second one follows.
    fn first_block(&self) -> Block
        ensures { result.samples ≡ first_block self.now.samples }
    {
        let mut samples = [0; BLOCK + 1];
        samples.copy_from_slice(&self.samples[..=BLOCK]);
        Block { samples }
    }

    // The second block, which the next pair follows.
    fn second_block(&self, next: &Pair) -> Block
        ensures { result.samples ≡ second_block self.now.samples next.now.samples }
    {
        let mut samples = [next.samples[0]; BLOCK + 1];
        samples[..BLOCK].copy_from_slice(&self.samples[BLOCK..]);
        Block { samples }
    }
}

// A block with its checks.
fn guarded(block: &CodedBlock) -> GuardedBlock
    ensures odd { result.odd ≡ block.now.odd }
    ensures even { result.even ≡ block.now.even }
    ensures checks { result.checks ≡ checks_of (parities (word_in result)) }
{
    let parities = parities(&block.odd.words, &block.even.words);
    GuardedBlock {
        odd: block.odd,
        even: block.even,
        checks: checks(parities) as u8,
    }
}

/// The pair as it is sent before the next one.
pub fn code(pair: &Pair, next: &Pair) -> CodedPair
    ensures { coded result ≡ sent_pair pair.now.samples next.now.samples }
{
    let first = encode(&pair.first_block());
    let second = encode(&pair.second_block(next));
    CodedPair {
        ranges: range_word(first.ranges, second.ranges),
        first: guarded(&first),
        second: guarded(&second),
    }
}
