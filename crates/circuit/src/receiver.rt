// Taking frames, and losses of frames: measure the buffer, read the octets, and only then change anything.
// Promise: answer, state and buffer are the defined ones, for whatever octets come.
ghost use Rattle.std.specs.Prelude.{◌≡◌, ◌≤◌, length};

use crate::faults::PairFault;
use pairs::PAIR;
use reception::{Arrived, Records, Report};
use words::Outlet;

// The arrivals that are too early to give a pair: one needs three frames after its own.
const EARLY: u8 = 3;

/// Turns frames that arrive, or are lost, into pairs of words of its outlet. A pair is given three frames after its own, when all
/// that it is made of has come.
#[derive(Drop)]
pub struct Receiver<O> {
    pub(crate) outlet: O,
    /// The last four pairs, as far as they have come.
    pub(crate) records: Records,
    /// How many frames have arrived, three at the most.
    pub(crate) seen: u8,
    ghost few: { seen ≤ 3 },
}

impl<O: Outlet> Receiver<O> {
    ghost use Rattle.reception.specs.Arrivals.{Arrival};
    ghost use Rattle.reception.specs.Carried.{carried, carried_by};
    ghost use Rattle.circuit.specs.Faults.{answer};
    ghost use Rattle.circuit.specs.Taking.{sink_of, fresh_sink, outcome_of, outcome, measuring, arriving, taking, losing};
    ghost use Rattle.words.specs.Answers.{gives};

    /// A receiver before its first frame.
    pub fn new(outlet: O) -> Receiver<O>
        ensures state { sink_of result ≡ fresh_sink }
        ensures outlet { result.outlet ≡ outlet }
    {
        Receiver {
            outlet,
            records: Records::new(),
            seen: 0,
        }
    }

    // Refuses a buffer that holds no pair of words.
    fn measure(words: &[u16]) -> Result<(), PairFault>
        ensures { answer result ≡ measuring (length words.now) }
    {
        if words.len() != PAIR {
            return Err(PairFault::Room(words.len()));
        }
        Ok(())
    }

    // Records an arrival and, but for the early ones, gives the oldest pair.
    fn arrive(&mut self, arrived: &Arrived, words: &mut [u16]) -> Option<Report>
        requires { length words.old ≡ 64 }
        ensures state { (a : Arrival) → carried arrived.now ≡ carried_by a → sink_of self.new ≡ (arriving (O.WordLaw.meaning self.old.outlet) (sink_of self.old) words.old a).sink }
        ensures buffer { (a : Arrival) → carried arrived.now ≡ carried_by a → words.new ≡ (arriving (O.WordLaw.meaning self.old.outlet) (sink_of self.old) words.old a).words }
        ensures answer { (a : Arrival) → carried arrived.now ≡ carried_by a → gives (outcome_of result) ≡ (arriving (O.WordLaw.meaning self.old.outlet) (sink_of self.old) words.old a).answer }
        ensures outlet { self.new.outlet ≡ self.old.outlet }
    {
        self.records.arrive(arrived);
        if self.seen < EARLY {
            self.seen += 1;
            return None;
        }
        Some(self.records.give(&self.outlet, words))
    }

    /// Takes a frame as it came, sound or damaged. The first three are too early and answer none; each later one gives the pair three
    /// before it.
    pub fn take(&mut self, octets: &[u8], words: &mut [u16]) -> Result<Option<Report>, PairFault>
        ensures state { sink_of self.new ≡ (taking (O.WordLaw.meaning self.old.outlet) (sink_of self.old) words.old octets.now).sink }
        ensures buffer { words.new ≡ (taking (O.WordLaw.meaning self.old.outlet) (sink_of self.old) words.old octets.now).words }
        ensures answer { outcome (answer result) ≡ (taking (O.WordLaw.meaning self.old.outlet) (sink_of self.old) words.old octets.now).answer }
        ensures outlet { self.new.outlet ≡ self.old.outlet }
    {
        Self::measure(words)?;
        let arrived = Arrived::taken(octets)?;
        Ok(self.arrive(&arrived, words))
    }

    /// Counts a frame as lost. It is answered like a frame that is taken.
    pub fn lose(&mut self, words: &mut [u16]) -> Result<Option<Report>, PairFault>
        ensures state { sink_of self.new ≡ (losing (O.WordLaw.meaning self.old.outlet) (sink_of self.old) words.old).sink }
        ensures buffer { words.new ≡ (losing (O.WordLaw.meaning self.old.outlet) (sink_of self.old) words.old).words }
        ensures answer { outcome (answer result) ≡ (losing (O.WordLaw.meaning self.old.outlet) (sink_of self.old) words.old).answer }
        ensures outlet { self.new.outlet ≡ self.old.outlet }
    {
        Self::measure(words)?;
        Ok(self.arrive(&Arrived::lost(), words))
    }
}
