// A verdict with the ranges that go with it. That its number is one of those that there are, and that whatever is not muted has
// its ranges, is part of the type, so whoever decodes a judged block has nothing to ask.
ghost use Rattle.std.specs.Prelude.{◌≡◌, true, false, is_some, Some, MatchOption};
ghost use Rattle.decoder.specs.Findings.{is_numbered, finding, tells_ranges, mutes};

use crate::verdict::Verdict;
use guards::ranges::Ranges;

/// A block's verdict, and its ranges unless it is muted for the loss of a frame or for its range word.
#[derive(Clone, Copy)]
pub struct Judged {
    pub verdict: Verdict,
    pub ranges: Option<Ranges>,
    ghost numbered: { is_numbered (finding verdict) ≡ true },
    ghost ranged: { is_some ranges ≡ tells_ranges (finding verdict) },
}

impl Judged {
    // The ranges by which the block is decoded: none where it is muted.
    pub(crate) fn audible(&self) -> Option<Ranges>
        ensures { MatchOption result (mutes (finding self.now.verdict) ≡ true) (λ s. (mutes (finding self.now.verdict) ≡ false) × (self.now.ranges ≡ Some s)) }
    {
        match self.verdict {
            Verdict::Mute(_) => None,
            _ => self.ranges,
        }
    }
}
