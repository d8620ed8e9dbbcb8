// Numbers worked by hand, and an input that comes in pieces.
use crate::{RawNumber, Units, fill};
use std::io::Read;
use std::test::Fail;

#[test]
fn samples_are_signed_and_words_are_not(rt: HostRuntime) {
    assert_eq!(rt; <i16 as RawNumber>::from_octets([0xff, 0xfe]), -2);
    assert_eq!(rt; <u16 as RawNumber>::from_octets([0xff, 0xfe]), 65534);
    assert_eq!(rt; (-8192i16).octets(), [0xe0, 0x00]);
}

#[test]
fn short_reads_are_joined(rt: HostRuntime) -> Result<(), Fail> {
    let front: &[u8] = b"ab";
    let back: &[u8] = b"cde";
    let mut input = front.chain(back);
    let mut unit = [0; 4];
    assert_eq!(rt; fill(&mut input, &mut unit)?, 4);
    assert_eq!(rt; unit, *b"abcd");
    assert_eq!(rt; fill(&mut input, &mut unit)?, 1);
    assert_eq!(rt; unit[0], b'e');
    assert_eq!(rt; fill(&mut input, &mut unit)?, 0);
    Ok(())
}

#[test]
fn units_are_complete(rt: HostRuntime) -> Result<(), Fail> {
    let front: &[u8] = b"ab";
    let back: &[u8] = b"cdefghijk";
    let mut units = Units::new(front.chain(back));
    for (number, unit) in (0..8).zip(&mut units) {
        let unit: [u8; 4] = unit?;
        assert_eq!(rt; unit, if number == 0 { *b"abcd" } else { *b"efgh" });
    }
    assert_eq!(rt; units.short(), 3);
    Ok(())
}
