// Circuits side by side, samples that come back whole, and refusals that leave no trace.
ghost use Rattle.std.specs.Prelude.{◌<◌};

use crate::lines::{LINES, PairOn, Turn};
use circuit::{Circuit, PairFault};
use frames::{FRAME_OCTETS, FrameFault};
use raw::PAIR;
use std::array;
use std::process::Abort;
use words::{Linear, WordLaw};

// Pairs put in each test.
const PAIRS: usize = 20;

// How many pairs after itself a pair comes back.
const DELAY: usize = 4;

fn four() -> [Circuit<Linear>; LINES] {
    array::from_fn(|_| Circuit::new(Linear))
}

// Puts a pair into each circuit, and then lets each take. By index: `from_fn` over lent circuits was tried, and did not prove.
fn turns(circuits: &mut [Circuit<Linear>; LINES], pair: usize) -> [Turn; LINES]
    requires { pair < 64 }
{
    let mut sent = [None; LINES];
    for (line, circuit) in circuits.iter_mut().enumerate() {
        sent[line] = PairOn { line, pair }.put(circuit);
    }
    let mut turns = [Turn::none(); LINES];
    for (line, circuit) in circuits.iter_mut().enumerate() {
        turns[line] = PairOn { line, pair }.take(circuit, sent[line]);
    }
    turns
}

#[test]
fn side_by_side_is_as_alone(rt: HostRuntime) {
    for line in 0..LINES {
        let mut beside = four();
        let mut alone = Circuit::new(Linear);
        for pair in 0..PAIRS {
            let turns = turns(&mut beside, pair);
            assert_eq!(rt; turns[line], PairOn { line, pair }.cross(&mut alone));
        }
    }
}

// Words of the linear law, read, are these samples.
fn are_words_of(rt: &impl Abort, words: &[u16; PAIR], samples: &[i16; PAIR]) {
    for (word, sample) in words.iter().zip(samples) {
        assert_eq!(rt; Linear.read(*word).ok(), Some(i32::from(*sample)));
    }
}

#[test]
fn quiet_samples_come_back(rt: HostRuntime) {
    let mut circuit = Circuit::new(Linear);
    for pair in 0..PAIRS {
        let turn = PairOn { line: 0, pair }.cross(&mut circuit);
        assert_eq!(rt; turn.report.is_some(), pair >= DELAY);
        if pair >= DELAY {
            let put = PairOn {
                line: 0,
                pair: pair - DELAY,
            };
            are_words_of(&rt, &turn.words, &put.signal());
        }
    }
}

// Calls that are refused, with buffers that stay as they were.
fn refuse(rt: &impl Abort, circuit: &mut Circuit<Linear>) {
    let mut frame = [7; FRAME_OCTETS];
    let mut words = [7; PAIR];
    let mut loud = [0; PAIR];
    loud[5] = 8192;
    assert_eq!(rt; circuit.put(&loud, &mut frame), Err(PairFault::Outside(5)));
    assert_eq!(rt;
        circuit.take(&[255; FRAME_OCTETS], &mut words),
        Err(PairFault::Frame(FrameFault::AllOnes))
    );
    assert_eq!(rt; frame, [7; FRAME_OCTETS]);
    assert_eq!(rt; words, [7; PAIR]);
}

#[test]
fn a_refusal_leaves_no_trace(rt: HostRuntime) {
    let mut refused = Circuit::new(Linear);
    let mut other = Circuit::new(Linear);
    for pair in 0..PAIRS {
        refuse(&rt, &mut refused);
        let pair = PairOn { line: 3, pair };
        assert_eq!(rt; pair.cross(&mut refused), pair.cross(&mut other));
    }
}
