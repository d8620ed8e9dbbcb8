// One locator for every check code: which single position explains a syndrome. It knows of a code only its law.
// Promise: what was sent with syndrome zero and has one position flipped is located exactly there.
ghost use Rattle.std.specs.Prelude.{◌≡◌};
ghost use Rattle.guards.specs.Located.{outcome, located, Means, OneFlipped};

use crate::codes::CheckCode;

/// What a syndrome says of a received word.
#[derive(Clone, Copy, PartialEq, Eq, Debug)]
pub enum Found {
    /// Every check agrees.
    Clean,
    /// The one position, from 1, that has this syndrome by itself.
    At(u32),
    /// No single position has it.
    Nowhere,
}

/// The answer to a syndrome: clean for zero, else the one position that has it, else nowhere.
pub fn locate<C: CheckCode>(code: &C, syndrome: u32) -> Found
    ensures answer { outcome result ≡ located C.CheckCode.positions C.CheckCode.syndrome syndrome }
    ensures means { Means C.CheckCode.positions C.CheckCode.syndrome syndrome result }
    ensures flipped { OneFlipped C.CheckCode.positions C.CheckCode.syndrome syndrome result }
{
    if syndrome == 0 {
        return Found::Clean;
    }
    let positions = code.positions();
    match (1..positions + 1).find(|k| code.syndrome(1 << (positions - *k)) == syndrome) {
        Some(k) => Found::At(k),
        None => Found::Nowhere,
    }
}
