// Raw files: 16-bit numbers, the high octet first. Samples are signed, words unsigned, and both are read and written by
// one text, a pair of 64 numbers at a time and with no allocation. What was written is read back the same.
#![tactic(auto)]

mod number;
mod pair;
mod stream;
mod units;

pub use number::RawNumber;
pub use pair::{PAIR, PAIR_OCTETS, read_pair, write_pair};
pub use stream::fill;
pub use units::Units;

#[cfg(test)]
mod tests;
