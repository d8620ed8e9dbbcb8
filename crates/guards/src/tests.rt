// Worked examples of the guard bits.
use crate::codes::{GuardCode, RangeCode, checks, range_word, range_word_syndrome};
use crate::locator::{Found, locate};
use crate::parities::{block_syndrome, parities};
use crate::ranges::Ranges;
use std::test::Fail;

fn code(basic: u8, additional: u8) -> Option<u8> {
    Some(Ranges::new(basic, additional)?.code())
}

#[test]
fn ranges_and_codes(rt: HostRuntime) {
    assert_eq!(rt; code(0, 0), Some(14));
    assert_eq!(rt; code(4, 2), Some(0));
    assert_eq!(rt; code(5, 0), None);
    assert_eq!(rt; code(0, 3), None);
    assert_eq!(rt; Ranges::from_code(6), Ranges::new(3, 1));
    assert_eq!(rt; Ranges::from_code(15), None);
}

fn silence() -> Option<u16> {
    let quiet = Ranges::new(0, 0)?;
    Some(range_word(quiet, quiet))
}

#[test]
fn range_word_of_silence(rt: HostRuntime) -> Result<(), Fail> {
    let word = silence().ok_or("ranges 0 and 0")?;
    assert_eq!(rt; word, 0b1110_1110_1000);
    assert_eq!(rt; locate(&RangeCode, range_word_syndrome(word)), Found::Clean);
    let r4 = word ^ 0b0001_0000_0000;
    assert_eq!(rt; locate(&RangeCode, range_word_syndrome(r4)), Found::At(4));
    let r1_r12 = word ^ 0b1000_0000_0001;
    assert_eq!(rt;
        locate(&RangeCode, range_word_syndrome(r1_r12)),
        Found::Nowhere
    );
    Ok(())
}

#[test]
fn hurt_samples(rt: HostRuntime) {
    let mut odd = [0u16; 16];
    let even = [0u16; 16];
    assert_eq!(rt; checks(parities(&odd, &even)), 0);
    odd[0] ^= 0b10_0000_0000;
    assert_eq!(rt;
        locate(&GuardCode, block_syndrome(&odd, &even, 0)),
        Found::At(1)
    );
    odd[13] ^= 0b10_0000_0000;
    assert_eq!(rt; block_syndrome(&odd, &even, 0), 9);
    assert_eq!(rt; locate(&GuardCode, 9), Found::Nowhere);
    assert_eq!(rt; locate(&GuardCode, 18), Found::Nowhere);
}
