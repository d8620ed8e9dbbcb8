// A pair on its way in. Its own frame begins the record with the range word and the checks, the next one brings half of the
// words and the one after it the others; then the range word is mended and both blocks are judged, once.
// Promise: at each step the record is the defined one, whatever the frames carry.
ghost use Rattle.std.specs.Prelude.{◌≡◌, ℕ};
ghost use Rattle.guards.specs.Located.{outcome};
ghost use Rattle.guards.specs.Mended.{range_found, ranges_told, numbers_of};
ghost use Rattle.frames.specs.Content.{pair_in};
ghost use Rattle.decoder.specs.Received.{received};
ghost use Rattle.reception.specs.Blocks.{judged};
ghost use Rattle.reception.specs.Recording.{begun, followed, completed, unjudged as muted, no_words};
ghost use Rattle.reception.specs.Records.{recorded, blank_record};

use crate::arrived::Arrived;
use blocks::{EvenWords, HALF, OddWords};
use decoder::{Cause, Judged, ReceivedBlock, Verdict, judge};
use guards::codes::GuardCode;
use guards::locator::{Found, locate};
use guards::mending::{Told, mend};
use guards::parities::block_syndrome;
use guards::ranges::Ranges;

/// What has arrived of a block: the checks first, then its words. It is muted until it is judged.
#[derive(Clone, Copy)]
pub struct BlockRecord {
    pub(crate) checks: u8,
    pub(crate) received: ReceivedBlock,
}

/// What has arrived of a pair.
#[derive(Clone, Copy)]
pub struct PairRecord {
    pub(crate) lost: bool,
    pub(crate) ranges: u16,
    pub(crate) first: BlockRecord,
    pub(crate) second: BlockRecord,
}

// A block before it is judged: until then it is muted.
fn unjudged(odd: OddWords, even: EvenWords) -> ReceivedBlock
    ensures { received result ≡ muted odd.words even.words }
{
    let judged = Judged {
        verdict: Verdict::Mute(Cause::Lost),
        ranges: None,
    };
    ReceivedBlock { judged, odd, even }
}

impl BlockRecord {
    // A block of which nothing but its checks has arrived.
    fn begun(checks: u8) -> BlockRecord
        ensures checks { result.checks ≡ checks }
        ensures received { received result.received ≡ muted no_words no_words }
    {
        let odd = OddWords { words: [0; HALF] };
        let even = EvenWords { words: [0; HALF] };
        BlockRecord {
            checks,
            received: unjudged(odd, even),
        }
    }

    // Judges a block whose words have all arrived, by what was found of its pair's range word and the ranges of its code.
    fn judge(&mut self, lost: bool, found: Found, ranges: Option<Ranges>)
        ensures checks { self.new.checks ≡ self.old.checks }
        ensures received { (word block : ℕ) → outcome found ≡ range_found word → numbers_of ranges ≡ ranges_told word block → received self.new.received ≡ judged lost word block self.old.checks self.old.received.odd.words self.old.received.even.words }
    {
        let ReceivedBlock { odd, even, .. } = self.received;
        let syndrome = block_syndrome(&odd.words, &even.words, u32::from(self.checks));
        self.received.judged = judge(lost, found, ranges, locate(&GuardCode, syndrome));
    }
}

impl PairRecord {
    /// What stands in place of a pair before the first one.
    pub fn blank() -> PairRecord
        ensures { recorded result ≡ blank_record }
    {
        PairRecord {
            lost: false,
            ranges: 0,
            first: BlockRecord::begun(0),
            second: BlockRecord::begun(0),
        }
    }

    /// The pair whose own frame this is.
    pub fn begun(arrived: &Arrived) -> PairRecord
        ensures { recorded result ≡ begun arrived.now.lost (pair_in arrived.now.frame) }
    {
        PairRecord {
            lost: arrived.lost,
            ranges: arrived.frame.ranges,
            first: BlockRecord::begun(arrived.frame.first.checks),
            second: BlockRecord::begun(arrived.frame.second.checks),
        }
    }

    /// The next frame: the odd words of the first block and the even ones of the second.
    pub fn follow(&mut self, arrived: &Arrived)
        ensures { recorded self.new ≡ followed arrived.now.lost (pair_in arrived.now.frame) (recorded self.old) }
    {
        self.lost |= arrived.lost;
        self.first.received = unjudged(arrived.frame.first.odd, self.first.received.even);
        self.second.received = unjudged(self.second.received.odd, arrived.frame.second.even);
    }

    /// The last frame, with the other words: the pair is complete, and judged.
    pub fn complete(&mut self, arrived: &Arrived)
        ensures { recorded self.new ≡ completed arrived.now.lost (pair_in arrived.now.frame) (recorded self.old) }
    {
        self.lost |= arrived.lost;
        self.first.received.even = arrived.frame.first.even;
        self.second.received.odd = arrived.frame.second.odd;
        let Told {
            found,
            first,
            second,
        } = mend(self.ranges);
        self.first.judge(self.lost, found, first);
        self.second.judge(self.lost, found, second);
    }
}
