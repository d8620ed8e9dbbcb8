// The program's loop over standard input, a pair at a time: each frame is written as soon as it is made, so that a live
// stream is answered as it comes. What is done with each pair is proved elsewhere.
ghost use Rattle.std.specs.Prelude.{◌≤◌, IfOk};

use crate::counts::Counts;
use crate::sending::{put_silence, send};
use circuit::{Sender, Sent};
use frames::FRAME_OCTETS;
use raw::{PAIR_OCTETS, Units};
use std::io;
use std::io::Write;
use telling::{RefusedUnit, Unit};

// No input has more octets than a `u64` can count.
const MOST_PAIRS: u64 = u64::MAX / PAIR_OCTETS as u64;

// The pairs of silence after the last pair: one lets its own frame go, two more the rest of its words, and the fourth those
// of the block that follows it.
const TAIL: u64 = 4;

// Puts silence until the last pair is on the line whole, and says how many frames that took.
fn finish(output: &mut impl Write, sender: &mut Sender) -> io::Result<u64>
    ensures { IfOk result (λ n. n ≤ 4) }
{
    let mut frame = [0; FRAME_OCTETS];
    let mut frames = 0;
    for _ in 0..TAIL {
        if let Sent::Written = put_silence(sender, &mut frame) {
            output.write_all(&frame)?;
            frames += 1;
        }
    }
    Ok(frames)
}

/// Sends every pair, and silence after the last one.
pub(crate) fn send_all(rt: &HostRuntime) -> io::Result<Counts> {
    let mut units = Units::new(rt.stdin());
    let mut output = rt.stdout();
    let mut sender = Sender::new();
    let mut frame = [0; FRAME_OCTETS];
    let mut counts = Counts::new();
    for (pair, octets) in (0..MOST_PAIRS).zip(&mut units) {
        let outcome = send(&mut sender, &octets?, &mut frame);
        if let Some(refusal) = outcome.refused {
            eprintln!(rt; "{}", RefusedUnit::new(Unit::Pair, pair, refusal))?;
        }
        if let Sent::Written = outcome.done {
            output.write_all(&frame)?;
        }
        counts.note(&outcome);
    }
    // an incomplete pair
    if units.short() > 0 {
        eprintln!(rt; "short {}", units.short())?;
    }
    if counts.pairs > 0 {
        counts.frames += finish(&mut output, &mut sender)?;
    }
    Ok(counts)
}
