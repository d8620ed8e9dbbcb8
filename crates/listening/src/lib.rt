// The receiving end of a line as programs have it: whatever comes is answered. A frame that is refused counts as lost, so that pairs
// keep their time.
#![tactic(auto)]

mod receiving;

pub use receiving::receive;
