// Frames of the line: 80 octets that carry the range word and checks of one pair and words of the two pairs before it.
// `Frame` is what a frame carries, within its bounds by type; `woven` makes it of three pairs, `write` and `read` turn it
// into octets and back. Reading takes whatever 80 octets arrive.
#![tactic(auto)]

mod content;
mod faults;
mod letters;
mod line;
mod promises;
mod sheet;
mod weave;

pub use content::{CodedPair, Frame, GuardedBlock};
pub use faults::FrameFault;
pub use line::FRAME_OCTETS;
pub use promises::frames_read_back;
