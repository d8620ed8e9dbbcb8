// The program's loop over standard input, a frame at a time: each pair is written as soon as it is given, so that a live
// stream is answered as it comes. What is done with each frame is proved elsewhere.
use crate::counts::Counts;
use crate::samples::sound;
use circuit::Receiver;
use frames::FRAME_OCTETS;
use listening::receive;
use raw::{PAIR, Units};
use std::io;
use std::io::Write;
use telling::{RefusedUnit, Unit};
use words::Linear;

// No input has more octets than a `u64` can count.
const MOST_FRAMES: u64 = u64::MAX / FRAME_OCTETS as u64;

/// Takes every frame, and writes the samples of each pair given.
pub(crate) fn receive_all(rt: &HostRuntime) -> io::Result<Counts> {
    let mut units = Units::new(rt.stdin());
    let mut output = rt.stdout();
    let mut receiver = Receiver::new(Linear);
    let mut words = [0; PAIR];
    let mut counts = Counts::new();
    for (frame, octets) in (0..MOST_FRAMES).zip(&mut units) {
        let outcome = receive(&mut receiver, &octets?, &mut words);
        if let Some(refusal) = outcome.refused {
            eprintln!(rt; "{}", RefusedUnit::new(Unit::Frame, frame, refusal))?;
        }
        if outcome.done.is_some() {
            output.write_all(&sound(&words))?;
        }
        counts.note(&outcome);
    }
    // an incomplete frame
    if units.short() > 0 {
        eprintln!(rt; "short {}", units.short())?;
    }
    Ok(counts)
}
