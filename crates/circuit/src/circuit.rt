// A circuit, one sender and one receiver with its outlet: its calls, and what it promises over its whole life.
ghost use Rattle.std.specs.Prelude.{◌≡◌, List};
ghost use Rattle.circuit.specs.Faults.{answer};
ghost use Rattle.circuit.specs.Putting.{source_of, fresh_source, putting, putting_words};
ghost use Rattle.circuit.specs.Taking.{sink_of, fresh_sink, outcome, taking, losing};
ghost use Rattle.circuit.specs.History.{Event, puts, puts_words, takes, loses};
ghost use Rattle.circuit.specs.Promise.{Dependable, WritesTheNextFrame, GivesTheNextPair};

use crate::faults::PairFault;
use crate::receiver::Receiver;
use crate::sender::{Sender, Sent};
use reception::Report;
use words::{Outlet, WordLaw};

/// One circuit's two ends in one memory. What either does changes nothing in the other.
#[derive(Drop)]
pub struct Circuit<O> {
    pub(crate) sender: Sender,
    pub(crate) receiver: Receiver<O>,
}

// Its calls hand on to its ends, which can be had apart; the clauses stand here too, since the promise is of these calls.
impl<O: Outlet> Circuit<O> {
    /// A circuit before its first call. Whatever calls follow, in whatever order and with whatever they are handed, refused ones
    /// included: frames are the standard's, pairs are the standard's, sound samples stay close, one damaged octet mutes nothing,
    /// and four frames decide a pair.
    pub fn new(outlet: O) -> Circuit<O>
        ensures sender { source_of result.sender ≡ fresh_source }
        ensures receiver { sink_of result.receiver ≡ fresh_sink }
        ensures outlet { result.receiver.outlet ≡ outlet }
        ensures dependable { (h : List Event) → Dependable (O.WordLaw.meaning outlet) h }
    {
        Circuit {
            sender: Sender::new(),
            receiver: Receiver::new(outlet),
        }
    }

    /// Puts a pair of samples. The first pair is held; each later one writes the frame of the pair before it.
    pub fn put(&mut self, samples: &[i16], frame: &mut [u8]) -> Result<Sent, PairFault>
        ensures state { source_of self.new.sender ≡ (putting (source_of self.old.sender) frame.old samples.now).source }
        ensures buffer { frame.new ≡ (putting (source_of self.old.sender) frame.old samples.now).frame }
        ensures answer { answer result ≡ (putting (source_of self.old.sender) frame.old samples.now).answer }
        ensures receiver { self.new.receiver ≡ self.old.receiver }
        ensures next { WritesTheNextFrame (source_of self.old.sender) (puts samples.now frame.old) (answer result) frame.new }
    {
        self.sender.put(samples, frame)
    }

    /// Puts a pair of words under a law, as the samples that they are read as.
    pub fn put_words<L: WordLaw>(
        &mut self,
        law: &L,
        words: &[u16],
        frame: &mut [u8],
    ) -> Result<Sent, PairFault>
        ensures state { source_of self.new.sender ≡ (putting_words (source_of self.old.sender) frame.old (L.WordLaw.meaning law.now) words.now).source }
        ensures buffer { frame.new ≡ (putting_words (source_of self.old.sender) frame.old (L.WordLaw.meaning law.now) words.now).frame }
        ensures answer { answer result ≡ (putting_words (source_of self.old.sender) frame.old (L.WordLaw.meaning law.now) words.now).answer }
        ensures receiver { self.new.receiver ≡ self.old.receiver }
        ensures next { WritesTheNextFrame (source_of self.old.sender) (puts_words (L.WordLaw.meaning law.now) words.now frame.old) (answer result) frame.new }
    {
        self.sender.put_words(law, words, frame)
    }

    /// Takes a frame as it came, sound or damaged. The first three are too early and answer none; each later one gives the pair three
    /// before it.
    pub fn take(&mut self, octets: &[u8], words: &mut [u16]) -> Result<Option<Report>, PairFault>
        ensures state { sink_of self.new.receiver ≡ (taking (O.WordLaw.meaning self.old.receiver.outlet) (sink_of self.old.receiver) words.old octets.now).sink }
        ensures buffer { words.new ≡ (taking (O.WordLaw.meaning self.old.receiver.outlet) (sink_of self.old.receiver) words.old octets.now).words }
        ensures answer { outcome (answer result) ≡ (taking (O.WordLaw.meaning self.old.receiver.outlet) (sink_of self.old.receiver) words.old octets.now).answer }
        ensures sender { self.new.sender ≡ self.old.sender }
        ensures outlet { self.new.receiver.outlet ≡ self.old.receiver.outlet }
        ensures next { GivesTheNextPair (O.WordLaw.meaning self.old.receiver.outlet) (sink_of self.old.receiver) (takes octets.now words.old) (outcome (answer result)) words.new }
    {
        self.receiver.take(octets, words)
    }

    /// Counts a frame as lost. It is answered like a frame that is taken.
    pub fn lose(&mut self, words: &mut [u16]) -> Result<Option<Report>, PairFault>
        ensures state { sink_of self.new.receiver ≡ (losing (O.WordLaw.meaning self.old.receiver.outlet) (sink_of self.old.receiver) words.old).sink }
        ensures buffer { words.new ≡ (losing (O.WordLaw.meaning self.old.receiver.outlet) (sink_of self.old.receiver) words.old).words }
        ensures answer { outcome (answer result) ≡ (losing (O.WordLaw.meaning self.old.receiver.outlet) (sink_of self.old.receiver) words.old).answer }
        ensures sender { self.new.sender ≡ self.old.sender }
        ensures outlet { self.new.receiver.outlet ≡ self.old.receiver.outlet }
        ensures next { GivesTheNextPair (O.WordLaw.meaning self.old.receiver.outlet) (sink_of self.old.receiver) (loses words.old) (outcome (answer result)) words.new }
    {
        self.receiver.lose(words)
    }
}
