// Two lines worked by hand: of silence, and of a block that is muted.
use crate::{LOG_OCTETS, PairNumber, log};
use decoder::{Cause, Verdict};
use guards::ranges::Ranges;
use reception::{BlockReport, Report};

#[test]
fn lines_of_a_pair(rt: HostRuntime) {
    let silence = BlockReport {
        ranges: Ranges::new(0, 0),
        verdict: Verdict::Clean,
        marks: [true; 32],
    };
    let muted = BlockReport {
        ranges: None,
        verdict: Verdict::Mute(Cause::NoRanges),
        marks: [false; 32],
    };
    let mut buffer = [1; LOG_OCTETS];
    let report = Report {
        first: silence,
        second: silence,
    };
    let number = PairNumber {
        circuit: 0,
        pair: 0,
    };
    assert_eq!(rt; log(&report, number, &mut buffer), Ok(42));
    assert!(rt; buffer.starts_with(b"0 0 1 0 0 clean 0 32\n0 0 2 0 0 clean 0 32\n\0"));
    let report = Report {
        first: silence,
        second: muted,
    };
    let number = PairNumber {
        circuit: 210,
        pair: 10,
    };
    assert_eq!(rt; log(&report, number, &mut buffer), Ok(46));
    assert!(rt; buffer.starts_with(b"210 10 1 0 0 clean 0 32\n210 10 2 - - mute 3 0\n\0"));
}
