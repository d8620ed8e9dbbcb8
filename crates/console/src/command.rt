// The commands of the console, and how a line is read as one.
use crate::faults::ConsoleFault;
use crate::law::Law;
use crate::outlet::OutletLaw;
use crate::tokens::Tokens;
use linelog::PairNumber;
use std::alloc::Global;

#[derive(Drop)]
pub enum Command {
    Word(Law, i32),
    Read(Law, u16),
    /// Values under a law, and the room for their words.
    Words(Law, usize, Vec<i32>),
    /// Words under a law, and the room for their values.
    Values(Law, usize, Vec<u16>),
    /// A block's samples and its follower.
    Ranges([i32; 33]),
    /// A range word as received, R1 to R12.
    RangeGuard(u32),
    /// The guard bits of a block as received, p1 to p24 and C1 to C5.
    BlockGuard(u32),
    /// A fresh circuit with this outlet.
    New(OutletLaw),
    /// The room for a frame, and samples.
    Put(usize, Vec<i16>),
    /// Words under a law, and the room for a frame.
    PutWords(Law, usize, Vec<u16>),
    /// The room for words, and the octets of a frame.
    Take(usize, Vec<u8>),
    /// The room for words.
    Lose(usize),
    /// The room for a log, and the numbers that it tells.
    Log(usize, PairNumber),
}

impl Command {
    fn read(line: &mut Tokens<'_>) -> Result<Command, ConsoleFault> {
        match line.word()? {
            "word" => Ok(Command::Word(line.parse()?, line.parse()?)),
            "read" => Ok(Command::Read(line.parse()?, line.parse()?)),
            "words" => Ok(Command::Words(line.parse()?, line.room()?, line.numbers()?)),
            "values" => Ok(Command::Values(line.parse()?, line.room()?, line.numbers()?)),
            "ranges" => Ok(Command::Ranges(line.samples()?)),
            "guard12" => Ok(Command::RangeGuard(line.bits(12)?)),
            "guard29" => Ok(Command::BlockGuard(line.bits(29)?)),
            "new" => Ok(Command::New(line.parse()?)),
            "put" => Ok(Command::Put(line.room()?, line.numbers()?)),
            "putw" => Ok(Command::PutWords(line.parse()?, line.room()?, line.numbers()?)),
            "take" => Ok(Command::Take(line.room()?, line.octets()?)),
            "lose" => Ok(Command::Lose(line.room()?)),
            "log" => Ok(Command::Log(line.room()?, line.pair_number()?)),
            _ => Err(ConsoleFault::NoCommand),
        }
    }

    /// The command of a line; nothing may stand after it.
    pub(crate) fn parse(heap: Global, line: &str) -> Result<Command, ConsoleFault> {
        let mut line = Tokens::new(heap, line);
        let command = Command::read(&mut line)?;
        if line.is_spent() {
            Ok(command)
        } else {
            Err(ConsoleFault::NoCommand)
        }
    }
}
