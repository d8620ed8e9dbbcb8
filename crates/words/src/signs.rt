// A signed value as a sign and a magnitude, so that the rest is unsigned.
ghost use Rattle.std.specs.Prelude.{◌≡◌};
ghost use Rattle.std.specs.Int.Signed.{mag};

/// How far a value lies from its own side of zero: v, or -1 - v where v is negative.
pub fn magnitude(value: i32) -> u32
    ensures { result ≡ mag value }
{
    if value >= 0 {
        value as u32
    } else {
        (-1 - value) as u32
    }
}
