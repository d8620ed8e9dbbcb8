// The level of a sample, in quarters of a sample unit: means of levels, and the samples that levels are.
// Promise: the bound of a level is part of its type, so no step here runs over. Each is a shift or a sum; nothing divides.
ghost use Rattle.std.specs.Prelude.{◌≡◌, ◌^◌, ◌<◌, ◌+ℤ◌};
ghost use Rattle.std.specs.Int.Signed.{mag};
ghost use Rattle.decoder.specs.Levels.{mean as mean_of, sample as sample_of};

use std::marker::Model;

// A level, in quarters of a sample unit.
#[derive(Clone, Copy)]
pub(crate) struct Level {
    quarters: i32,
}

impl Model for Level {
    ghost use Rattle.std.specs.Prelude.{ℤ, ◌^◌, ◌<◌};
    ghost use Rattle.std.specs.Int.Signed.{mag};

    ghost Value = { ℤ };

    ghost view = { λ level. level.quarters };

    ghost invariant = { λ level. mag level.quarters < 2 ^ 17 };

    ghost inverse = { λ quarters. record { quarters = quarters } };
}

impl Level {
    pub(crate) fn new(quarters: i32) -> Level
        requires { mag quarters < 2 ^ 17 }
        ensures { result ≡ quarters }
    {
        Level { quarters }
    }

    // The level as a follower keeps it.
    pub(crate) fn short(self) -> i16
        requires { mag self < 2 ^ 15 }
        ensures { result ≡ self }
    {
        self.quarters as i16
    }

    pub(crate) fn mean(self, other: Level) -> Level
        ensures { result ≡ mean_of self other }
    {
        Level {
            quarters: (self.quarters + other.quarters) >> 1,
        }
    }

    pub(crate) fn sample(self) -> i32
        ensures value { result ≡ sample_of self }
        ensures small { mag result < 2 ^ 13 }
    {
        sample(self.quarters)
    }

    // The sample of two levels together.
    pub(crate) fn sample_with(self, other: Level) -> i32
        ensures value { result ≡ sample_of (self +ℤ other) }
        ensures small { mag result < 2 ^ 13 }
    {
        sample(self.quarters + other.quarters)
    }
}

// Samples are held within these. They stay plain numbers, bounded by a clause: companding takes them so, and a type would be taken
// off again at once.
const LOWEST: i32 = -8192;

const HIGHEST: i32 = 8191;

fn sample(quarters: i32) -> i32
    requires { mag quarters < 2 ^ 18 }
    ensures value { result ≡ sample_of quarters }
    ensures small { mag result < 2 ^ 13 }
{
    ((quarters - 1) >> 2).clamp(LOWEST, HIGHEST)
}
