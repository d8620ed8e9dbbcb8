// A silent frame, a blank one, and frames that are refused.
use frames::{CodedPair, FRAME_OCTETS, Frame, FrameFault};
use std::test::Fail;

// Both ranges 0: twice the code 1110, and the checks 1000.
const SILENT_RANGES: u16 = 0b1110_1110_1000;

// The octets, from 1, that hold a range bit which is 1, each as its bit 7.
const WITH_RANGE_BIT: [usize; 7] = [5, 15, 20, 25, 45, 55, 65];

#[test]
fn a_silent_frame(rt: HostRuntime) -> Result<(), Fail> {
    let mut pair = CodedPair::blank();
    pair.ranges = SILENT_RANGES;
    let mut octets = [7; FRAME_OCTETS];
    Frame::woven(&pair, &pair, &pair).write(&mut octets)?;
    for (j, octet) in octets.iter().enumerate() {
        let expected = if WITH_RANGE_BIT.contains(&(j + 1)) {
            2
        } else {
            0
        };
        assert_eq!(rt; *octet, expected);
    }
    let frame = Frame::read(&octets)?;
    assert_eq!(rt; frame.ranges, SILENT_RANGES);
    Ok(())
}

#[test]
fn a_blank_frame(rt: HostRuntime) -> Result<(), Fail> {
    let mut octets = [7; FRAME_OCTETS];
    Frame::blank().write(&mut octets)?;
    assert_eq!(rt; octets, [0; FRAME_OCTETS]);
    Ok(())
}

#[test]
fn other_frames_are_refused(rt: HostRuntime) {
    let pair = CodedPair::blank();
    let frame = Frame::woven(&pair, &pair, &pair);
    let mut short = [7; 79];
    assert_eq!(rt; frame.write(&mut short), Err(FrameFault::Room(79)));
    assert_eq!(rt; short, [7; 79]);
    let long = [255; 81];
    assert!(rt; matches!(Frame::read(&long), Err(FrameFault::Length(81))));
    assert!(rt; matches!(Frame::read(&long[1..]), Err(FrameFault::AllOnes)));
}
