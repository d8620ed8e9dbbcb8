// Ranges worked by hand.
use crate::{Block, ranges};
use std::test::Fail;

// The ranges of silence but for sample 1, sample 2 and the follower.
fn ranges_of(first: i32, second: i32, follower: i32) -> Option<(u8, u8)> {
    let mut samples = [0; 33];
    samples[0] = first;
    samples[1] = second;
    samples[32] = follower;
    let block = Block::new(samples)?;
    Some(ranges(&block))
}

// Sample 1 and the follower, with the basic range of the block.
const BASIC: [(i32, i32, u8); 7] = [
    (511, 0, 0),
    (512, 0, 1),
    (-512, 0, 0),
    (-513, 0, 1),
    (8191, 0, 4),
    (0, 8191, 4),
    (0, 512, 1),
];

#[test]
fn basic_ranges(rt: HostRuntime) -> Result<(), Fail> {
    for (first, follower, basic) in BASIC {
        let (r, _) = ranges_of(first, 0, follower).ok_or("no block")?;
        assert_eq!(rt; r, basic);
    }
    Ok(())
}

// Samples 1 and 2, whose difference is the widest, with the additional range at basic range 0.
const ADDITIONAL: [(i32, i32, u8); 4] = [(-1, 255, 0), (0, 256, 1), (-2, 511, 2), (1, 511, 1)];

#[test]
fn additional_ranges(rt: HostRuntime) {
    for (first, second, additional) in ADDITIONAL {
        assert_eq!(rt; ranges_of(first, second, 0), Some((0, additional)));
    }
    assert!(rt; ranges_of(8192, 0, 0).is_none() && ranges_of(0, 0, -8193).is_none());
}
