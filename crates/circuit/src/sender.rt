// Putting pairs: measure the buffer and the count, look at every sample, and only then change anything.
ghost use Rattle.std.specs.Prelude.{◌≡◌, length};
ghost use Rattle.words.specs.Answers.{gives};
ghost use Rattle.circuit.specs.Faults.{answer};
ghost use Rattle.circuit.specs.Putting.{source_of, fresh_source, first_outside, accepting, valued, measuring, putting, putting_words};

use crate::faults::PairFault;
use frames::{CodedPair, FRAME_OCTETS, Frame, FrameFault};
use pairs::{PAIR, Pair, code};
use std::array;
use words::{WordFault, WordLaw, expand, magnitude};

// One more than the largest magnitude of a sample.
const MAGNITUDES: u32 = 8192;

/// What became of a pair that was put.
#[derive(Clone, Copy, PartialEq, Eq, Debug)]
pub enum Sent {
    /// It waits for the next pair: nothing was written.
    Held,
    /// The frame of the pair before it was written.
    Written,
}

/// Turns pairs into frames. A pair waits until the next one is put, since the next pair's first sample belongs to its code.
#[derive(Clone, Copy)]
pub struct Sender {
    /// The pair that waits.
    pub(crate) held: Option<Pair>,
    /// The coded pairs one and two before it: a frame carries words of both.
    pub(crate) one: CodedPair,
    pub(crate) two: CodedPair,
}

// The index of the first value that is no sample.
fn first_outside(values: &[i32]) -> Option<usize>
    ensures { result ≡ first_outside 0 values.now }
{
    values
        .iter()
        .position(|value| magnitude(*value) >= MAGNITUDES)
}

// A pair of samples as values of a word law.
fn widen(samples: &[i16]) -> [i32; PAIR]
    requires { length samples.now ≡ 64 }
    ensures { result ≡ samples.now }
{
    array::from_fn(|i| i32::from(samples[i]))
}

impl Sender {
    /// A sender before its first pair.
    pub fn new() -> Sender
        ensures { source_of result ≡ fresh_source }
    {
        Sender {
            held: None,
            one: CodedPair::blank(),
            two: CodedPair::blank(),
        }
    }

    // Puts a pair into a sender whose buffer was measured.
    fn accept(&mut self, pair: Pair, frame: &mut [u8]) -> Sent
        requires { length frame.old ≡ 80 }
        ensures state { source_of self.new ≡ (accepting (source_of self.old) frame.old (source_of self.old).held pair.samples).source }
        ensures buffer { frame.new ≡ (accepting (source_of self.old) frame.old (source_of self.old).held pair.samples).frame }
        ensures answer { gives result ≡ (accepting (source_of self.old) frame.old (source_of self.old).held pair.samples).answer }
    {
        let held = self.held;
        self.held = Some(pair);
        match held {
            None => Sent::Held,
            Some(held) => {
                let own = code(&held, &pair);
                Frame::woven(&own, &self.one, &self.two)
                    .write(frame)
                    .unwrap();
                self.two = self.one;
                self.one = own;
                Sent::Written
            }
        }
    }

    // Puts 64 values, if each is a sample.
    fn put_values(&mut self, values: [i32; PAIR], frame: &mut [u8]) -> Result<Sent, PairFault>
        requires { length frame.old ≡ 80 }
        ensures state { source_of self.new ≡ (valued (source_of self.old) frame.old values).source }
        ensures buffer { frame.new ≡ (valued (source_of self.old) frame.old values).frame }
        ensures answer { answer result ≡ (valued (source_of self.old) frame.old values).answer }
    {
        if let Some(i) = first_outside(&values) {
            return Err(PairFault::Outside(i));
        }
        Ok(self.accept(Pair { samples: values }, frame))
    }

    // Refuses a buffer that holds no frame, then another count than a pair's.
    fn measure(count: usize, frame: &[u8]) -> Result<(), PairFault>
        ensures { answer result ≡ measuring count (length frame.now) }
    {
        if frame.len() != FRAME_OCTETS {
            return Err(PairFault::Frame(FrameFault::Room(frame.len())));
        }
        if count != PAIR {
            return Err(PairFault::Count(count));
        }
        Ok(())
    }

    /// Puts a pair of samples. The first pair is held; each later one writes the frame of the pair before it.
    pub fn put(&mut self, samples: &[i16], frame: &mut [u8]) -> Result<Sent, PairFault>
        ensures state { source_of self.new ≡ (putting (source_of self.old) frame.old samples.now).source }
        ensures buffer { frame.new ≡ (putting (source_of self.old) frame.old samples.now).frame }
        ensures answer { answer result ≡ (putting (source_of self.old) frame.old samples.now).answer }
    {
        Sender::measure(samples.len(), frame)?;
        self.put_values(widen(samples), frame)
    }

    /// Puts a pair of words under a law, as the samples that they are read as.
    pub fn put_words<L: WordLaw>(
        &mut self,
        law: &L,
        words: &[u16],
        frame: &mut [u8],
    ) -> Result<Sent, PairFault>
        ensures state { source_of self.new ≡ (putting_words (source_of self.old) frame.old (L.WordLaw.meaning law.now) words.now).source }
        ensures buffer { frame.new ≡ (putting_words (source_of self.old) frame.old (L.WordLaw.meaning law.now) words.now).frame }
        ensures answer { answer result ≡ (putting_words (source_of self.old) frame.old (L.WordLaw.meaning law.now) words.now).answer }
    {
        Sender::measure(words.len(), frame)?;
        let mut values = [0; PAIR];
        expand(law, words, &mut values)?;
        self.put_values(values, frame)
    }
}
