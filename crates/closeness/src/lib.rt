// How close sound samples stay to the samples sent: the promised bounds, by the ranges and by how far codes may be off.
// Promise: the bounds hold of every received block, whatever was sent; and one hit that no guard bit covers moves a code by 16.
#![tactic(auto)]

ghost use Rattle.std.specs.Prelude.{◌≡◌, ◌^◌, ◌≤◌};
ghost use Rattle.closeness.specs.Bounds.{odd_bound, even_bound, SoundSamplesStayClose};
ghost use Rattle.closeness.specs.Codes.{WordsTellCodes};

use guards::ranges::Ranges;

/// The distances within which sound samples of a block lie from the samples sent.
#[derive(Clone, Copy, PartialEq, Eq, Debug)]
pub struct Bounds {
    /// Twice the distance of an odd sample is at most this.
    pub odd: u32,
    /// Four times the distance of an even sample is below this.
    pub even: u32,
    /// The same of sample 32, which leans on the follower.
    pub last: u32,
}

// A width, two to the power of a range. By a shift: the library's `pow` takes half as many instructions again in `Bounds::of`.
fn width(range: u8) -> u32
    requires { range ≤ 6 }
    ensures value { result ≡ 2 ^ range }
    ensures small { result ≤ 64 }
{
    1 << range
}

impl Bounds {
    /// The bounds of a block of these ranges, whose follower's block has the ranges `next`, where codes are off by at most `slack`.
    pub fn of(slack: u8, ranges: Ranges, next: Ranges) -> Bounds
        ensures odd { result.odd ≡ odd_bound slack ranges.basic }
        ensures even { result.even ≡ even_bound slack ranges.basic ranges.additional ranges.basic }
        ensures last { result.last ≡ even_bound slack ranges.basic ranges.additional next.basic }
        ensures close { SoundSamplesStayClose }
    {
        let steps = 2 * u32::from(slack) + 1;
        let basic = width(ranges.basic());
        let difference = 2 * width(ranges.basic() + ranges.additional());
        Bounds {
            odd: steps * basic,
            even: steps * (difference + basic + basic),
            last: steps * (difference + basic + width(next.basic())),
        }
    }
}

/// How far a code is off where one bit of its word is hit that no guard bit covers.
pub fn slack_of_one_hit() -> u8
    ensures value { result ≡ 16 }
    ensures codes { WordsTellCodes result }
{
    16
}
