// The last four pairs as frames arrive: each frame begins its own pair, follows the one before and completes the one before
// that, and the oldest pair is given.
// Promise: the records are the defined ones, and words and report are those of the oldest pair and the one after it.
ghost use Rattle.std.specs.Prelude.{◌≡◌, ◌+◌, ◌%◌, ◌<◌, map, length, if◌then◌else◌, ◌==◌};

use crate::arrived::Arrived;
use crate::record::PairRecord;
use crate::report::Report;
use words::Outlet;

// The pairs on their way in: begun, followed, completed, and the one to give.
const SLOTS: usize = 4;

/// The records of the last four pairs; `at` is the slot of the oldest, where the next one goes. That there are four, and that it
/// is one of them, is part of the type.
#[derive(Clone, Copy)]
pub struct Records {
    slots: [PairRecord; SLOTS],
    at: usize,
    ghost four: { length slots ≡ 4 },
    ghost inside: { at < 4 },
}

impl Records {
    ghost use Rattle.frames.specs.Content.{pair_in};
    ghost use Rattle.reception.specs.Arrivals.{Arrival};
    ghost use Rattle.reception.specs.Carried.{carried, carried_by};
    ghost use Rattle.reception.specs.Records.{recorded, backwards, recent_of, no_records, arrive_with, arrive_by, oldest_given};
    ghost use Rattle.reception.specs.Reports.{report_told};

    /// Before any frame has arrived.
    pub fn new() -> Records
        ensures { recent_of result ≡ no_records }
    {
        Records {
            slots: [PairRecord::blank(); SLOTS],
            at: 0,
        }
    }

    // The newest pair, before slot `at`, is followed, the one before it is completed, and a new one begins in slot `at`.
    fn record(slots: &mut [PairRecord; SLOTS], at: usize, arrived: &Arrived)
        requires { at < 4 }
        ensures recent { backwards ((at + 1) % 4) (map recorded slots.new) ≡ arrive_with arrived.now.lost (pair_in arrived.now.frame) (backwards at (map recorded slots.old)) }
        ensures four { length slots.new ≡ 4 }
    {
        slots[(at + 3) % SLOTS].follow(arrived);
        slots[(at + 2) % SLOTS].complete(arrived);
        slots[at] = PairRecord::begun(arrived);
    }

    /// The next frame arrives, or is lost.
    pub fn arrive(&mut self, arrived: &Arrived)
        ensures value { recent_of self.new ≡ arrive_with arrived.now.lost (pair_in arrived.now.frame) (recent_of self.old) }
        ensures arrival { (a : Arrival) → carried arrived.now ≡ carried_by a → recent_of self.new ≡ arrive_by a (recent_of self.old) }
    {
        Self::record(&mut self.slots, self.at, arrived);
        self.at = (self.at + 1) % SLOTS;
    }

    /// The oldest pair: its words where there is room for 64, and the report on it.
    pub fn give<O: Outlet>(&self, outlet: &O, words: &mut [u16]) -> Report
        ensures report { report_told result ≡ (oldest_given (O.WordLaw.meaning outlet.now) (recent_of self.now)).report }
        ensures buffer { words.new ≡ (if length words.old == 64 then (oldest_given (O.WordLaw.meaning outlet.now) (recent_of self.now)).words else words.old) }
    {
        let oldest = &self.slots[self.at];
        let next = &self.slots[(self.at + 1) % SLOTS];
        oldest.given(next, outlet, words)
    }
}
