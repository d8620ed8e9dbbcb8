// What a receiver makes of a received block: the verdict, the levels of its samples with what is hurt concealed, the samples
// given, and which of them are sound. Whatever was sent, a sound sample lies near what the codes sent stand for.
#![tactic(auto)]

mod follower;
mod heard;
mod judged;
mod judging;
mod level;
mod levels;
mod marks;
mod received;
mod scale;
mod verdict;

pub use follower::Follower;
pub use judged::Judged;
pub use judging::judge;
pub use received::ReceivedBlock;
pub use verdict::{Cause, Verdict};
