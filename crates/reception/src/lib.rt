// What a receiver makes of frames: pairs are recorded as they arrive, judged once they are complete, and given.
#![tactic(auto)]

mod arrived;
mod giving;
mod record;
mod records;
mod report;

pub use arrived::Arrived;
pub use record::PairRecord;
pub use records::Records;
pub use report::{BlockReport, Report};
