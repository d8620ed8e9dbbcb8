// What is sent for a pair of a raw file: the pair itself, or silence where it is refused, so that what follows keeps its
// time.
ghost use Rattle.std.specs.Prelude.{◌≡◌};
ghost use Rattle.words.specs.Answers.{gives};
ghost use Rattle.circuit.specs.Putting.{source_of, accepting, putting};
ghost use Rattle.telling.specs.Told.{refused_by};
ghost use Rattle.j43send.specs.Sending.{silent, samples_in, sending};

use circuit::{Sender, Sent};
use frames::FRAME_OCTETS;
use raw::{PAIR, PAIR_OCTETS, read_pair};
use telling::Outcome;
use words::Refusal;

const SILENCE: [i16; PAIR] = [0; PAIR];

/// Puts a pair of silence, which is never refused.
pub fn put_silence(sender: &mut Sender, frame: &mut [u8; FRAME_OCTETS]) -> Sent
    ensures state { source_of sender.new ≡ (accepting (source_of sender.old) frame.old (source_of sender.old).held silent).source }
    ensures buffer { frame.new ≡ (accepting (source_of sender.old) frame.old (source_of sender.old).held silent).frame }
    ensures answer { gives result ≡ (accepting (source_of sender.old) frame.old (source_of sender.old).held silent).answer }
{
    sender.put(&SILENCE, frame).unwrap()
}

/// Puts the pair that stands in the octets, or silence in its place. Answers whether a frame was written, and why silence
/// was put.
pub fn send(
    sender: &mut Sender,
    octets: &[u8; PAIR_OCTETS],
    frame: &mut [u8; FRAME_OCTETS],
) -> Outcome<Sent>
    ensures state { source_of sender.new ≡ (sending (source_of sender.old) frame.old (samples_in octets.now)).source }
    ensures buffer { frame.new ≡ (sending (source_of sender.old) frame.old (samples_in octets.now)).frame }
    ensures answer { gives result.done ≡ (sending (source_of sender.old) frame.old (samples_in octets.now)).answer }
    ensures refused { result.refused ≡ refused_by (putting (source_of sender.old) frame.old (samples_in octets.now)).answer }
{
    let samples: [i16; PAIR] = read_pair(octets);
    match sender.put(&samples, frame) {
        Ok(done) => Outcome {
            done,
            refused: None,
        },
        Err(fault) => Outcome {
            done: put_silence(sender, frame),
            refused: Some(Refusal::from(fault)),
        },
    }
}
