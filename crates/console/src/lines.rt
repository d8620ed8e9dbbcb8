// How lists, octets and reports are written on an answer's line.
use guards::ranges::Ranges;
use reception::BlockReport;
use std::fmt;

/// Each number behind a space.
#[derive(Drop)]
pub struct Listed<'a, T>(pub &'a [T]);

impl<T: fmt::Display> fmt::Display for Listed<'_, T> {
    fn fmt<W: fmt::Write>(&self, f: &mut fmt::Formatter<W>) -> fmt::Result {
        for n in self.0 {
            write!(f, " {n}")?;
        }
        Ok(())
    }
}

/// Two digits to an octet.
#[derive(Drop)]
pub struct Hexadecimal<'a>(pub &'a [u8]);

impl fmt::Display for Hexadecimal<'_> {
    fn fmt<W: fmt::Write>(&self, f: &mut fmt::Formatter<W>) -> fmt::Result {
        for octet in self.0 {
            write!(f, "{octet:02x}")?;
        }
        Ok(())
    }
}

fn ranges<W: fmt::Write>(f: &mut fmt::Formatter<W>, ranges: Option<Ranges>) -> fmt::Result {
    match ranges {
        Some(ranges) => {
            let basic = ranges.basic();
            let additional = ranges.additional();
            write!(f, "{basic} {additional}")
        }
        None => write!(f, "- -"),
    }
}

/// A block by its ranges, its verdict, and a 1 for each sound sample.
#[derive(Drop)]
pub struct Told<'a>(pub &'a BlockReport);

impl fmt::Display for Told<'_> {
    fn fmt<W: fmt::Write>(&self, f: &mut fmt::Formatter<W>) -> fmt::Result {
        ranges(f, self.0.ranges)?;
        write!(f, " {} ", self.0.verdict)?;
        for sound in self.0.marks {
            write!(f, "{}", u8::from(sound))?;
        }
        Ok(())
    }
}
