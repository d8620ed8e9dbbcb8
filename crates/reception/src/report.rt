// What is told of a pair that is given: plain values, of each block its ranges, its verdict and a mark for each sample.
// Promise: a report is the defined one of the blocks that were received (see `giving`).
use blocks::BLOCK;
use decoder::Verdict;
use guards::ranges::Ranges;

/// What is told of a block: its ranges, none where it is muted for a loss or its range word; its verdict; and which of its
/// samples are sound.
#[derive(Clone, Copy, PartialEq, Eq, Debug)]
pub struct BlockReport {
    pub ranges: Option<Ranges>,
    pub verdict: Verdict,
    pub marks: [bool; BLOCK],
}

/// What is told of a pair.
#[derive(Clone, Copy, PartialEq, Eq, Debug)]
pub struct Report {
    pub first: BlockReport,
    pub second: BlockReport,
}
