// One circuit: pairs of samples go out as frames, and frames that arrive, or are lost, come back as pairs of words. Sender and
// receiver can be had apart; a `Circuit` is one of each, and its making carries what is promised of every history of calls.
#![tactic(auto)]

mod circuit;
mod faults;
mod promises;
mod receiver;
mod sender;

pub use circuit::Circuit;
pub use faults::PairFault;
pub use pairs::{PAIR, Pair, code};
pub use promises::frames_are_the_standards;
pub use receiver::Receiver;
pub use sender::{Sender, Sent};
