// Words and values worked by hand.
use crate::{Additional, Basic, Linear, VariantB, WordFault, WordLaw, compand, expand};
use std::test::Fail;

// Values with their words.
const VARIANT_B: [(i32, u16); 4] = [
    (0, 0b0_001_0000000_1),
    (4095, 0b0_110_1111111_1),
    (8191, 0b0_111_1111111_0),
    (-8192, 0b1_111_1111111_1),
];

#[test]
fn variant_b_words(rt: HostRuntime) {
    for (value, word) in VARIANT_B {
        assert_eq!(rt; VariantB.make(value), Ok(word));
    }
    assert_eq!(rt; VariantB.make(8192), Err(WordFault::Outside(0)));
}

// Values at range 4, with their words and what these are read as.
const WIDEST: [(i32, u16, i32); 3] = [
    (8191, 511, 8183),
    (-1, 0b1_000000000, -9),
    (-8192, 1023, -8185),
];

#[test]
fn the_widest_basic_range(rt: HostRuntime) -> Result<(), Fail> {
    let law = Basic::new(4).ok_or("range 4")?;
    for (value, word, back) in WIDEST {
        assert_eq!(rt; law.make(value), Ok(word));
        assert_eq!(rt; law.read(word), Ok(back));
    }
    Ok(())
}

#[test]
fn ranges_outside_are_refused(rt: HostRuntime) -> Result<(), Fail> {
    assert!(rt;
        Basic::new(5).is_none()
            && Additional::new(5, 0).is_none()
            && Additional::new(0, 3).is_none()
    );
    let law = Additional::new(4, 2).ok_or("ranges 4 and 2")?;
    assert_eq!(rt; law.make(-32766), Ok(511));
    Ok(())
}

#[test]
fn a_refused_list_writes_nothing(rt: HostRuntime) {
    let mut words = [7, 7, 7];
    assert_eq!(rt;
        compand(&Linear, &[1, -8193, 9000], &mut words),
        Err(WordFault::Outside(1))
    );
    assert_eq!(rt;
        compand(&Linear, &[1, -1], &mut words),
        Err(WordFault::WordRoom(3))
    );
    assert_eq!(rt; words, [7, 7, 7]);
    let mut values = [5, 5];
    assert_eq!(rt;
        expand(&VariantB, &[0, 1], &mut values),
        Err(WordFault::NoValue(0))
    );
    assert_eq!(rt; values, [5, 5]);
}
