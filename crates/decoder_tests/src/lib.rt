// Received blocks worked by hand: the definitions of the crate `decoder` by a theorem, its code by tests. They stand apart because
// a crate with tests is proved twice.
#![tactic(auto)]

ghost use Rattle.decoder_tests.specs.Worked.{Worked};

#[cfg(test)]
mod tests;

/// The definitions give the values that were worked by hand.
pub fn worked_by_hand() -> bool
    ensures { Worked }
{
    true
}
