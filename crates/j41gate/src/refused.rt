// A pair that the gate refused, as the user is told of it: one line, on standard error or in the report.
ghost use Rattle.std.specs.Prelude.{◌≡◌};
ghost use Rattle.words.specs.Faults.{refusal_of};
ghost use Rattle.telling.specs.declared.refused.Unit.TheVariants.{Pair};
ghost use Rattle.telling.specs.Told.{refused};

use telling::{RefusedUnit, Unit};
use words::WordFault;

/// The pair of this number, from 0, and why it was refused.
pub fn refused_pair(number: u64, fault: WordFault) -> RefusedUnit
    ensures { result ≡ refused Pair number (refusal_of fault) }
{
    RefusedUnit::new(Unit::Pair, number, fault.into())
}
