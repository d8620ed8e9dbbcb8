// What the console answers to a command that it carries out, as a line of text.
use crate::lines::{Hexadecimal, Listed, Told};
use guards::locator::Found;
use reception::Report;
use std::fmt;

#[derive(Drop)]
pub enum Reply {
    Word(u16),
    Value(i32),
    Words(Vec<u16>),
    Values(Vec<i32>),
    Ranges(u8, u8),
    Located(Found),
    /// The circuit is fresh.
    Fresh,
    /// The pair that was put waits for the next one.
    Held,
    /// The frame that was written.
    Frame(Vec<u8>),
    /// No pair is complete yet.
    Early,
    /// The words of a pair, and the report on it.
    Pair(Vec<u16>, Report),
    /// How many octets the lines of a log have, and its whole buffer, which is shown too.
    Log(usize, Vec<u8>),
}

impl fmt::Display for Reply {
    fn fmt<W: fmt::Write>(&self, f: &mut fmt::Formatter<W>) -> fmt::Result {
        match self {
            Reply::Word(word) => write!(f, "word {word}"),
            Reply::Value(value) => write!(f, "value {value}"),
            Reply::Words(words) => write!(f, "words{}", Listed(words)),
            Reply::Values(values) => write!(f, "values{}", Listed(values)),
            Reply::Ranges(basic, additional) => write!(f, "ranges {basic} {additional}"),
            Reply::Located(Found::Clean) => write!(f, "clean"),
            Reply::Located(Found::At(position)) => write!(f, "at {position}"),
            Reply::Located(Found::Nowhere) => write!(f, "nowhere"),
            Reply::Fresh => write!(f, "ok"),
            Reply::Held => write!(f, "held"),
            Reply::Frame(octets) => write!(f, "frame {}", Hexadecimal(octets)),
            Reply::Early => write!(f, "early"),
            Reply::Pair(words, report) => {
                write!(f, "pair{}", Listed(words))?;
                write!(f, " | {} | {}", Told(&report.first), Told(&report.second))
            }
            Reply::Log(length, octets) => write!(f, "log {length} {}", Hexadecimal(octets)),
        }
    }
}
