// Carries commands out, each by the one call of the codec that it names, in buffers of the room that the command asks for.
use crate::command::Command;
use crate::faults::ConsoleFault;
use crate::law::Law;
use crate::outlet::OutletLaw;
use crate::reply::Reply;
use blocks::{Block, ranges};
use circuit::{Circuit, Sent};
use guards::codes::{CheckCode, GuardCode, RangeCode, range_word_syndrome};
use guards::locator::locate;
use linelog::{PairNumber, log};
use reception::Report;
use std::alloc::Global;
use words::{WordLaw, compand, expand};

/// The one circuit that the console drives, and the report on the last pair that it gave.
#[derive(Drop)]
pub struct Console {
    heap: Global,
    circuit: Circuit<OutletLaw>,
    last: Option<Report>,
}

fn ranges_of(samples: [i32; 33]) -> Result<Reply, ConsoleFault> {
    let block = Block::new(samples).ok_or(ConsoleFault::NoCommand)?;
    let (basic, additional) = ranges(&block);
    Ok(Reply::Ranges(basic, additional))
}

// What the locator says of a range word, and of a block's guard bits.
fn range_guard(word: u32) -> Reply {
    let syndrome = range_word_syndrome((word & 0xfff) as u16);
    Reply::Located(locate(&RangeCode, syndrome))
}

fn block_guard(guards: u32) -> Reply {
    let syndrome = GuardCode.syndrome(guards);
    Reply::Located(locate(&GuardCode, syndrome))
}

// What became of a pair that was put, with the frame buffer that was lent.
fn sent(outcome: Sent, frame: Vec<u8>) -> Reply {
    match outcome {
        Sent::Held => Reply::Held,
        Sent::Written => Reply::Frame(frame),
    }
}

impl Console {
    /// A console with a fresh circuit.
    pub(crate) fn new(heap: Global, outlet: OutletLaw) -> Console {
        Console {
            heap,
            circuit: Circuit::new(outlet),
            last: None,
        }
    }

    /// What a line is answered.
    pub(crate) fn answer(&mut self, line: &str) -> Result<Reply, ConsoleFault> {
        match Command::parse(self.heap, line)? {
            Command::Word(law, value) => Ok(Reply::Word(law.make(value)?)),
            Command::Read(law, word) => Ok(Reply::Value(law.read(word)?)),
            Command::Words(law, room, values) => self.words(law, room, &values),
            Command::Values(law, room, words) => self.values(law, room, &words),
            Command::Ranges(samples) => ranges_of(samples),
            Command::RangeGuard(word) => Ok(range_guard(word)),
            Command::BlockGuard(guards) => Ok(block_guard(guards)),
            Command::New(outlet) => {
                *self = Console::new(self.heap, outlet);
                Ok(Reply::Fresh)
            }
            Command::Put(room, samples) => self.put(room, &samples),
            Command::PutWords(law, room, words) => self.put_words(law, room, &words),
            Command::Take(room, octets) => self.take(room, &octets),
            Command::Lose(room) => self.lose(room),
            Command::Log(room, number) => self.log(room, number),
        }
    }

    fn words(&self, law: Law, room: usize, values: &[i32]) -> Result<Reply, ConsoleFault> {
        let mut words = vec![in self.heap; 0; room]?;
        compand(&law, values, &mut words)?;
        Ok(Reply::Words(words))
    }

    fn values(&self, law: Law, room: usize, words: &[u16]) -> Result<Reply, ConsoleFault> {
        let mut values = vec![in self.heap; 0; room]?;
        expand(&law, words, &mut values)?;
        Ok(Reply::Values(values))
    }

    fn put(&mut self, room: usize, samples: &[i16]) -> Result<Reply, ConsoleFault> {
        let mut frame = vec![in self.heap; 0; room]?;
        let outcome = self.circuit.put(samples, &mut frame)?;
        Ok(sent(outcome, frame))
    }

    fn put_words(&mut self, law: Law, room: usize, words: &[u16]) -> Result<Reply, ConsoleFault> {
        let mut frame = vec![in self.heap; 0; room]?;
        let outcome = self.circuit.put_words(&law, words, &mut frame)?;
        Ok(sent(outcome, frame))
    }

    fn take(&mut self, room: usize, octets: &[u8]) -> Result<Reply, ConsoleFault> {
        let mut words = vec![in self.heap; 0; room]?;
        let report = self.circuit.take(octets, &mut words)?;
        Ok(self.taken(report, words))
    }

    fn lose(&mut self, room: usize) -> Result<Reply, ConsoleFault> {
        let mut words = vec![in self.heap; 0; room]?;
        let report = self.circuit.lose(&mut words)?;
        Ok(self.taken(report, words))
    }

    // What became of a frame, with the word buffer that was lent. Keeps the report of a pair that is given.
    fn taken(&mut self, report: Option<Report>, words: Vec<u16>) -> Reply {
        match report {
            None => Reply::Early,
            Some(report) => {
                self.last = Some(report);
                Reply::Pair(words, report)
            }
        }
    }

    // Logs the last pair given.
    fn log(&self, room: usize, number: PairNumber) -> Result<Reply, ConsoleFault> {
        let mut buffer = vec![in self.heap; 0; room]?;
        let report = self.last.as_ref().ok_or(ConsoleFault::NoCommand)?;
        let length = log(report, number, &mut buffer)?;
        Ok(Reply::Log(length, buffer))
    }
}
