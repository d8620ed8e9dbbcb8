// What is made of a frame as it came: it is taken, or counted as lost where it is refused.
ghost use Rattle.std.specs.Prelude.{◌≡◌, None};
ghost use Rattle.words.specs.Answers.{gives};
ghost use Rattle.words.specs.Linear.{linear};
ghost use Rattle.circuit.specs.Taking.{sink_of, outcome_of, arriving, taking};
ghost use Rattle.telling.specs.Told.{refused_by};
ghost use Rattle.listening.specs.Receiving.{receiving};

use circuit::Receiver;
use frames::FRAME_OCTETS;
use raw::PAIR;
use reception::Report;
use telling::Outcome;
use words::{Linear, Refusal};

// Counts a frame as lost, which is never refused.
fn lose(receiver: &mut Receiver<Linear>, words: &mut [u16; PAIR]) -> Option<Report>
    ensures state { sink_of receiver.new ≡ (arriving linear (sink_of receiver.old) words.old None).sink }
    ensures buffer { words.new ≡ (arriving linear (sink_of receiver.old) words.old None).words }
    ensures answer { gives (outcome_of result) ≡ (arriving linear (sink_of receiver.old) words.old None).answer }
{
    receiver.lose(words).unwrap()
}

/// Takes a frame, or counts it as lost. Answers whether a pair was given, with the report on it, and why the frame was
/// counted as lost.
pub fn receive(
    receiver: &mut Receiver<Linear>,
    octets: &[u8; FRAME_OCTETS],
    words: &mut [u16; PAIR],
) -> Outcome<Option<Report>>
    ensures state { sink_of receiver.new ≡ (receiving (sink_of receiver.old) words.old octets.now).sink }
    ensures buffer { words.new ≡ (receiving (sink_of receiver.old) words.old octets.now).words }
    ensures answer { gives (outcome_of result.done) ≡ (receiving (sink_of receiver.old) words.old octets.now).answer }
    ensures refused { result.refused ≡ refused_by (taking linear (sink_of receiver.old) words.old octets.now).answer }
{
    match receiver.take(octets, words) {
        Ok(done) => Outcome {
            done,
            refused: None,
        },
        Err(fault) => Outcome {
            done: lose(receiver, words),
            refused: Some(Refusal::from(fault)),
        },
    }
}
