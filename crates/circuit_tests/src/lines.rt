// Four lines, each with a signal of its own and harm of its own, and what a circuit on one of them gives for a pair.
ghost use Rattle.std.specs.Prelude.{◌<◌};

use circuit::{Circuit, Sent};
use frames::FRAME_OCTETS;
use raw::PAIR;
use reception::Report;
use words::Linear;

pub(crate) const LINES: usize = 4;

// The step of each line's sawtooth; the first line keeps to range 0.
const LOUDNESS: [i16; LINES] = [7, 60, 120, 250];

/// A pair by its number and the line that it goes over.
#[derive(Clone, Copy)]
pub(crate) struct PairOn {
    pub line: usize,
    pub pair: usize,
    ghost one_of_four: { line < 4 },
    ghost few_pairs: { pair < 64 },
}

/// What became of a pair that was put, and of the frame that this let go.
#[derive(Clone, Copy, PartialEq, Eq, Debug)]
pub(crate) struct Turn {
    pub sent: Option<[u8; FRAME_OCTETS]>,
    pub words: [u16; PAIR],
    pub report: Option<Report>,
}

impl Turn {
    /// Before any.
    pub(crate) fn none() -> Turn {
        Turn {
            sent: None,
            words: [0; PAIR],
            report: None,
        }
    }
}

impl PairOn {
    /// Its samples.
    pub(crate) fn signal(self) -> [i16; PAIR] {
        let mut samples = [0; PAIR];
        for (i, sample) in samples.iter_mut().enumerate() {
            let step = (i * (self.line + 1) + 5 * self.pair) % 64;
            *sample = (step as i16 - 32) * LOUDNESS[self.line];
        }
        samples
    }

    /// Puts it; the frame that it lets go.
    pub(crate) fn put(self, circuit: &mut Circuit<Linear>) -> Option<[u8; FRAME_OCTETS]> {
        let mut frame = [0; FRAME_OCTETS];
        match circuit.put(&self.signal(), &mut frame) {
            Ok(Sent::Written) => Some(frame),
            _ => None,
        }
    }

    // A frame after its way over the line; none where it is lost. The first line is sound, the second hurts one octet, the
    // third loses frames and the last hurts two octets.
    fn carried(self, frame: &[u8; FRAME_OCTETS]) -> Option<[u8; FRAME_OCTETS]> {
        let PairOn { line, pair } = self;
        let mut came = *frame;
        match (line, pair % 4) {
            (1, 1) => came[pair] ^= 0xff,
            (2, 2) => return None,
            (3, 3) => {
                came[pair] ^= 0x81;
                came[pair + 12] ^= 0x42;
            }
            _ => {}
        }
        Some(came)
    }

    /// Hands over the frame that it let go, as that comes over the line.
    pub(crate) fn take(
        self,
        circuit: &mut Circuit<Linear>,
        sent: Option<[u8; FRAME_OCTETS]>,
    ) -> Turn {
        let mut words = [0; PAIR];
        let report = match sent {
            Some(frame) => match self.carried(&frame) {
                Some(came) => circuit.take(&came, &mut words).ok().flatten(),
                None => circuit.lose(&mut words).ok().flatten(),
            },
            None => None,
        };
        Turn {
            sent,
            words,
            report,
        }
    }

    /// Both.
    pub(crate) fn cross(self, circuit: &mut Circuit<Linear>) -> Turn {
        let sent = self.put(circuit);
        self.take(circuit, sent)
    }
}
