// A complete pair as it is given: the words of its 64 samples, and the report on its two blocks.
// Promise: words and report are the defined ones; no sample lies outside an outlet, so none is refused.
ghost use Rattle.std.specs.Prelude.{◌≡◌, ◌++◌, length, if◌then◌else◌, ◌==◌};
ghost use Rattle.decoder.specs.Received.{received};
ghost use Rattle.reception.specs.Given.{block_told, giving};
ghost use Rattle.reception.specs.Reports.{block_report_told, report_told};

use crate::record::PairRecord;
use crate::report::{BlockReport, Report};
use blocks::BLOCK;
use decoder::{Follower, ReceivedBlock};
use words::{Outlet, compand};

const PAIR: usize = 2 * BLOCK;

// The samples of two blocks in one row.
fn joined(first: &[i32; BLOCK], second: &[i32; BLOCK]) -> [i32; PAIR]
    ensures { result ≡ first.now ++ second.now }
{
    let mut samples = [0; PAIR];
    samples[..BLOCK].copy_from_slice(first);
    samples[BLOCK..].copy_from_slice(second);
    samples
}

// What is told of a block in front of this follower.
fn report_on(block: &ReceivedBlock, next: &Follower) -> BlockReport
    ensures { block_report_told result ≡ block_told (received block.now) next.now }
{
    BlockReport {
        ranges: block.judged.ranges,
        verdict: block.judged.verdict,
        marks: block.marks(next),
    }
}

impl PairRecord {
    // The pair before the next one: its words where there is room for 64, and the report on it.
    pub(crate) fn given<O: Outlet>(
        &self,
        next: &PairRecord,
        outlet: &O,
        words: &mut [u16],
    ) -> Report
        ensures report { report_told result ≡ (giving (O.WordLaw.meaning outlet.now) (received self.now.first.received) (received self.now.second.received) (received next.now.first.received)).report }
        ensures buffer { words.new ≡ (if length words.old == 64 then (giving (O.WordLaw.meaning outlet.now) (received self.now.first.received) (received self.now.second.received) (received next.now.first.received)).words else words.old) }
    {
        let (first, second) = (&self.first.received, &self.second.received);
        let after_first = second.follower();
        let after_second = next.first.received.follower();
        let samples = joined(&first.samples(&after_first), &second.samples(&after_second));
        // Refused only where there is no room for 64 words, and there nothing is to be written. It tries every sample before it makes
        // words, which an outlet does not need; a loop here that made each word at once would be the half of `compand` again.
        let _ = compand(outlet, &samples, words);
        Report {
            first: report_on(first, &after_first),
            second: report_on(second, &after_second),
        }
    }
}
