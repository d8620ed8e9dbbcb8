// Pairs of samples as they are sent: two blocks, each coded with the sample after it, and guarded.
#![tactic(auto)]

mod coding;
mod pair;

pub use coding::code;
pub use pair::{PAIR, Pair};
