// The log of a pair: measure the buffer, refuse, make both lines, write them.
// Promise: answer and buffer are the defined ones, and two lines always fit.
ghost use Rattle.std.specs.Prelude.{◌≡◌, ◌≤◌, IfOk};
ghost use Rattle.reception.specs.Reports.{report_told};
ghost use Rattle.linelog.specs.Faults.{answer};
ghost use Rattle.linelog.specs.Logging.{checking, logging};

use crate::faults::LogFault;
use crate::lines::{LOG_OCTETS, PairNumber, lines_of};
use reception::Report;

// The highest numbers that a log tells. Lines fit for any others too.
const HIGHEST_CIRCUIT: u32 = 255;

const HIGHEST_PAIR: u32 = 999_999;

// Refuses a buffer that holds no log, then numbers that are too high.
fn check(number: PairNumber, room: usize) -> Result<(), LogFault>
    ensures { answer result ≡ checking number.circuit number.pair room }
{
    if room != LOG_OCTETS {
        return Err(LogFault::Room(room));
    }
    if number.circuit > HIGHEST_CIRCUIT {
        return Err(LogFault::Circuit);
    }
    if number.pair > HIGHEST_PAIR {
        return Err(LogFault::Pair);
    }
    Ok(())
}

/// Writes the two lines of a pair's log into 96 octets, zeros after them, and answers how many octets the lines have.
/// Another length of the buffer is refused, then a circuit, then a pair above the highest; nothing is written then.
pub fn log(report: &Report, number: PairNumber, buffer: &mut [u8]) -> Result<usize, LogFault>
    ensures answer { answer result ≡ (logging number.circuit number.pair (report_told report.now) buffer.old).answer }
    ensures buffer { buffer.new ≡ (logging number.circuit number.pair (report_told report.now) buffer.old).buffer }
    ensures fits { IfOk result (λ n. n ≤ 96) }
{
    check(number, buffer.len())?;
    let text = lines_of(report, number);
    let (lines, rest) = buffer.split_at_mut(text.len());
    lines.copy_from_slice(text.as_bytes());
    rest.fill(0);
    Ok(text.len())
}
