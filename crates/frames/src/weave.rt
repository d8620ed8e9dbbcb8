// Pairs on their way into frames. A frame is woven of three pairs, so that neighbouring samples travel apart and damage on
// the line is spread thin.
ghost use Rattle.std.specs.Prelude.{◌≡◌};
ghost use Rattle.frames.specs.Frame.{octets_of, woven, frame_of, blank};
ghost use Rattle.frames.specs.Content.{coded, pair_in, listed};

use crate::content::{CodedPair, Frame, GuardedBlock};
use blocks::{EvenWords, HALF, OddWords};

impl CodedPair {
    /// The pair that stands before the first one: all bits are 0.
    pub fn blank() -> CodedPair
        ensures { listed (coded result) ≡ listed blank }
    {
        let block = GuardedBlock {
            odd: OddWords { words: [0; HALF] },
            even: EvenWords { words: [0; HALF] },
            checks: 0,
        };
        CodedPair {
            ranges: 0,
            first: block,
            second: block,
        }
    }
}

impl Frame {
    /// A frame on which all bits are 0, as one that is lost is taken for.
    pub fn blank() -> Frame
        ensures { listed (pair_in result) ≡ listed blank }
    {
        let pair = CodedPair::blank();
        Frame {
            ranges: pair.ranges,
            first: pair.first,
            second: pair.second,
        }
    }

    /// The frame of a pair, with the pairs one and two before it.
    pub fn woven(own: &CodedPair, one: &CodedPair, two: &CodedPair) -> Frame
        ensures value { listed (pair_in result) ≡ listed (woven (coded own.now) (coded one.now) (coded two.now)) }
        ensures octets { octets_of (pair_in result) ≡ frame_of (coded own.now) (coded one.now) (coded two.now) }
    {
        Frame {
            ranges: own.ranges,
            first: GuardedBlock {
                odd: one.first.odd,
                even: two.first.even,
                checks: own.first.checks,
            },
            second: GuardedBlock {
                odd: two.second.odd,
                even: one.second.even,
                checks: own.second.checks,
            },
        }
    }
}
