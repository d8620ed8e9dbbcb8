// The log of a pair: two lines of text, one for each block, written into a lent buffer.
// Nothing is allocated, and two lines fit whatever their numbers are.
#![tactic(auto)]

mod faults;
mod lines;
mod logging;

pub use faults::LogFault;
pub use lines::{LOG_OCTETS, PairNumber};
pub use logging::log;

#[cfg(test)]
mod tests;
