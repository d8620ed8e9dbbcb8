// What became of a pair or a frame that a program handled.
use words::Refusal;

/// What was done, and the refusal that made it stand in for the unit itself.
#[derive(Clone, Copy)]
pub struct Outcome<T> {
    /// What was done, for the unit or in its place.
    pub done: T,
    /// Why the unit was refused.
    pub refused: Option<Refusal>,
}
