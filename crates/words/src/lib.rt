// Word laws: how a value becomes a word of a few bits, and which value a word stands for.
// The laws are linear, J.41 variant B, and the basic and additional laws of J.43. Each proves the cell rule of its
// meaning, and the companding of whole lists is written once for all of them.
#![tactic(auto)]

mod faults;
mod law;
mod linear;
mod lists;
mod ranged;
mod signed;
mod signs;
mod variant_b;

pub use faults::{Layer, Refusal, WordFault};
pub use law::{FixedLength, Outlet, WordLaw};
pub use linear::Linear;
pub use lists::{compand, expand};
pub use ranged::{Additional, Basic};
pub use signs::magnitude;
pub use variant_b::VariantB;

#[cfg(test)]
mod tests;
