// How a program tells its user of what was refused, and how it ends.
#![tactic(auto)]

mod ending;
mod outcome;
mod refused;

pub use ending::ended;
pub use outcome::Outcome;
pub use refused::{RefusedUnit, Unit};
