// A pair or a frame that was refused, told in one line.
ghost use Rattle.std.specs.Prelude.{◌≡◌, Some};
ghost use Rattle.telling.specs.Told.{unit_name, refused, told};

use std::fmt;
use words::Refusal;

/// What a program handles at a time.
#[derive(Clone, Copy)]
pub enum Unit {
    Pair,
    Frame,
}

impl Unit {
    /// The name by which a user is told of it.
    pub fn name(self) -> &'static str
        ensures { result.now ≡ unit_name self }
    {
        match self {
            Unit::Pair => "pair",
            Unit::Frame => "frame",
        }
    }
}

/// Prints the name.
impl fmt::Display for Unit {
    ghost output = { λ unit. Some (unit_name unit) };

    fn fmt<W: fmt::Write>(&self, f: &mut fmt::Formatter<W>) -> fmt::Result {
        f.write_str(self.name())
    }
}

/// A unit that was refused, by its number from 0.
#[derive(Clone, Copy)]
pub struct RefusedUnit {
    pub unit: Unit,
    pub number: u64,
    pub refusal: Refusal,
}

impl RefusedUnit {
    /// A refused unit and its refusal.
    pub fn new(unit: Unit, number: u64, refusal: Refusal) -> RefusedUnit
        ensures { result ≡ refused unit number refusal }
    {
        RefusedUnit {
            unit,
            number,
            refusal,
        }
    }
}

impl fmt::Display for RefusedUnit {
    ghost output = { λ u. Some (told u) };

    fn fmt<W: fmt::Write>(&self, f: &mut fmt::Formatter<W>) -> fmt::Result {
        let number = self.refusal.number;
        let place = self.refusal.place;
        let layer = self.refusal.layer;
        write!(
            f,
            "refusal {} {} number {number} place {place} layer {layer}",
            self.unit, self.number
        )
    }
}
