// A coded block. The bounds on its ranges and words are part of the types, so whoever packs one has nothing to ask, and
// encoder, frame reader and decoder keep them.
ghost use Rattle.std.specs.Prelude.{◌≡◌, ℕ, ◌^◌, ◌<◌, length, slice_index};

use guards::ranges::Ranges;

/// Half the samples of a block: the odd ones, or the even ones.
pub const HALF: usize = 16;

/// Words for half the samples of a block, each of so many bits.
#[derive(Clone, Copy)]
pub struct Words<const BITS: u32> {
    pub words: [u16; HALF],
    ghost all: { length words ≡ 16 },
    ghost short: { (i : ℕ) → slice_index words i < 2 ^ BITS },
}

/// The words of a block's odd samples 1, 3 .. 31.
pub type OddWords = Words<10>;

/// The words of the differences at a block's even samples 2, 4 .. 32.
pub type EvenWords = Words<9>;

/// A block as the sender codes it.
#[derive(Clone, Copy)]
pub struct CodedBlock {
    pub ranges: Ranges,
    pub odd: OddWords,
    pub even: EvenWords,
}
