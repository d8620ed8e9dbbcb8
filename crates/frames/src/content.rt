// What a frame carries, unpacked. The bounds on words, checks and range word are part of the types, so writing a frame
// asks nothing, and whoever reads one knows them.
ghost use Rattle.std.specs.Prelude.{◌^◌, ◌<◌};

use blocks::{EvenWords, OddWords};

/// A block's words with the checks C1 to C5 that guard them, C1 highest.
#[derive(Clone, Copy)]
pub struct GuardedBlock {
    pub odd: OddWords,
    pub even: EvenWords,
    pub checks: u8,
    ghost five: { checks < 2 ^ 5 },
}

/// A coded pair: its range word R1 to R12, R1 highest, and its two blocks.
#[derive(Clone, Copy)]
pub struct CodedPair {
    pub ranges: u16,
    pub first: GuardedBlock,
    pub second: GuardedBlock,
    ghost twelve: { ranges < 2 ^ 12 },
}

/// What one frame carries: as much as a pair, woven of three. The range word and the checks are those of the frame's own
/// pair. The odd words of the first block and the even ones of the second are of the pair before it, the other words of the
/// pair before that one.
// A type of its own, so that no pair is written unwoven; one struct inside both would only lengthen each use of the fields.
#[derive(Clone, Copy)]
pub struct Frame {
    pub ranges: u16,
    pub first: GuardedBlock,
    pub second: GuardedBlock,
    ghost twelve: { ranges < 2 ^ 12 },
}
