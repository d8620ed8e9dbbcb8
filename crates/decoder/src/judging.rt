// The verdict on a block: a match over the loss, the locator's answers and the ranges of the corrected code, in the order of the
// causes. Promise: it is the first that applies, and its numbers are those of samples, pairs and checks.
ghost use Rattle.std.specs.Prelude.{◌≡◌, is_some, if◌then◌else◌, None};
ghost use Rattle.guards.specs.Located.{outcome};
ghost use Rattle.decoder.specs.Findings.{finding, tells_ranges};
ghost use Rattle.decoder.specs.Verdicts.{first_that_applies, ConcealsWhatIsHurt};

use crate::judged::Judged;
use crate::verdict::{Cause, Verdict};
use guards::locator::Found;
use guards::ranges::Ranges;

// The last positions of the parities of odd samples, of the parities of even pairs, and of the checks.
const ODD_PARITIES: u32 = 16;

const PARITIES: u32 = 24;

const POSITIONS: u32 = 29;

/// The verdict on a block: `lost` where a frame of it is lost, what the locator answered for its range word, the ranges of its
/// corrected range code, and what the locator answered for its parities and checks.
pub fn judge(lost: bool, range_word: Found, ranges: Option<Ranges>, guards: Found) -> Judged
    ensures answer { finding result.verdict ≡ first_that_applies lost (outcome range_word) (is_some ranges) (outcome guards) }
    ensures hurt { ConcealsWhatIsHurt (finding result.verdict) (outcome guards) }
    ensures ranges { result.ranges ≡ (if tells_ranges (finding result.verdict) then ranges else None) }
{
    let verdict = match (range_word, ranges, guards) {
        _ if lost => Verdict::Mute(Cause::Lost),
        (Found::Nowhere, _, _) => Verdict::Mute(Cause::RangeWord),
        (_, None, _) => Verdict::Mute(Cause::NoRanges),
        (_, _, Found::Nowhere) => Verdict::Mute(Cause::Guards),
        (_, _, Found::Clean) => Verdict::Clean,
        (_, _, Found::At(k)) if k >= 1 && k <= ODD_PARITIES => Verdict::Odd((2 * k - 1) as u8),
        (_, _, Found::At(k)) if k > ODD_PARITIES && k <= PARITIES => {
            Verdict::Pair((k - ODD_PARITIES) as u8)
        }
        (_, _, Found::At(k)) if k > PARITIES && k <= POSITIONS => {
            Verdict::Check((k - PARITIES) as u8)
        }
        (_, _, Found::At(_)) => Verdict::Mute(Cause::Guards),
    };
    let ranges = match verdict {
        Verdict::Mute(Cause::Lost | Cause::RangeWord) => None,
        _ => ranges,
    };
    Judged { verdict, ranges }
}
