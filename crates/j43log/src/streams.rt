// The program's loop over standard input, a frame at a time: each pair's lines are written as soon as it is given, so that a live
// line is logged as it runs.
use circuit::Receiver;
use linelog::{LOG_OCTETS, PairNumber, log};
use listening::receive;
use raw::{PAIR, Units};
use reception::Report;
use std::io;
use std::io::Write;
use telling::{RefusedUnit, Unit};
use words::Linear;

// What stands after so many frames is not read.
const MOST_FRAMES: u32 = 1_000_000;

// A pair is given so many frames after its own.
const FRAMES_AFTER: u32 = 3;

// The number by which the log names the one circuit.
const CIRCUIT: u32 = 0;

// Writes the lines of a pair; one above the highest that a log tells has none.
fn write_lines(output: &mut impl Write, report: &Report, pair: u32) -> io::Result<()> {
    let mut lines = [0; LOG_OCTETS];
    let number = PairNumber {
        circuit: CIRCUIT,
        pair,
    };
    let length = log(report, number, &mut lines).unwrap_or(0);
    output.write_all(&lines[..length])
}

/// Logs each pair that the frames give.
pub(crate) fn log_all(rt: &HostRuntime) -> io::Result<()> {
    let mut units = Units::new(rt.stdin());
    let mut output = rt.stdout();
    let mut receiver = Receiver::new(Linear);
    let mut words = [0; PAIR];
    for (frame, octets) in (0..MOST_FRAMES).zip(&mut units) {
        let outcome = receive(&mut receiver, &octets?, &mut words);
        if let Some(refusal) = outcome.refused {
            let told = RefusedUnit::new(Unit::Frame, u64::from(frame), refusal);
            eprintln!(rt; "{told}")?;
        }
        if let Some(report) = outcome.done {
            write_lines(&mut output, &report, frame.saturating_sub(FRAMES_AFTER))?;
        }
    }
    // an incomplete frame
    if units.short() > 0 {
        println!(rt; "short {}", units.short())?;
    }
    Ok(())
}
