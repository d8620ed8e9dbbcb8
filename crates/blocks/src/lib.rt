// Coded blocks: 32 samples become two ranges, 16 basic words of the odd samples and 16 additional words of the differences at
// the even ones. The ranges are the smallest that hold the samples, the follower and the differences.
#![tactic(auto)]

mod block;
mod coded;
mod encoder;
mod search;

pub use block::{BLOCK, Block};
pub use coded::{CodedBlock, EvenWords, HALF, OddWords, Words};
pub use encoder::encode;
pub use search::ranges;

#[cfg(test)]
mod tests;
