// Samples that return as worked out by hand, hurt ones that are concealed, and a verdict out of each case.
use blocks::{Block, encode};
use decoder::{Cause, Follower, ReceivedBlock, Verdict, judge};
use guards::locator::Found;
use guards::ranges::Ranges;
use std::test::Fail;

// Loud samples, so that the ranges are 4 and 2: three times 8191, then -8192 between two of them, then -1 and -8192 among the
// odd ones, and silence.
fn loud() -> [i32; 33] {
    let mut samples = [0; 33];
    samples[..5].fill(8191);
    samples[3] = -8192;
    samples[6] = -1;
    samples[8] = -8192;
    samples
}

// A block as it was coded, with this answer of the locator for its guard bits.
fn received(samples: [i32; 33], guards: Found) -> Option<ReceivedBlock> {
    let coded = encode(&Block::new(samples)?);
    Some(ReceivedBlock {
        judged: judge(false, Found::Clean, Some(coded.ranges), guards),
        odd: coded.odd,
        even: coded.even,
    })
}

#[test]
fn loud_samples_return(rt: HostRuntime) -> Result<(), Fail> {
    let block = received(loud(), Found::Clean).ok_or("these are samples")?;
    let given = block.samples(&Follower::Sound(0));
    assert_eq!(rt; given[0], 8183, "8191 at range 4");
    assert_eq!(rt; given[1], 8191, "level 32864, held");
    assert_eq!(rt; given[3], -8169, "-8192 between 8191 and 8191");
    assert_eq!(rt; given[6], -9, "-1 at range 4");
    assert_eq!(rt; given[8], -8185, "-8192 at range 4");
    Ok(())
}

#[test]
fn hurt_samples_are_concealed(rt: HostRuntime) -> Result<(), Fail> {
    let first = received(loud(), Found::At(1)).ok_or("these are samples")?;
    assert_eq!(rt;
        first.follower(),
        Follower::Concealed(32736),
        "sample 1 takes the level of sample 3"
    );
    assert_eq!(rt; first.samples(&Follower::Muted)[0], 8183);
    let fourth = received(loud(), Found::At(4)).ok_or("these are samples")?;
    assert_eq!(rt;
        fourth.samples(&Follower::Muted)[6],
        -1,
        "the mean of 8183 and -8185"
    );
    let marks = fourth.marks(&Follower::Muted);
    assert!(rt; marks[4] && !marks[5] && !marks[6] && !marks[7] && marks[8] && !marks[31]);
    Ok(())
}

fn verdict(lost: bool, range_word: Found, ranges: Option<Ranges>, guards: Found) -> Verdict {
    judge(lost, range_word, ranges, guards).verdict
}

#[test]
fn the_first_verdict_applies(rt: HostRuntime) {
    let some = Ranges::new(4, 2);
    let (clean, nowhere) = (Found::Clean, Found::Nowhere);
    assert_eq!(rt;
        verdict(true, nowhere, None, nowhere),
        Verdict::Mute(Cause::Lost)
    );
    assert_eq!(rt;
        verdict(false, nowhere, None, nowhere),
        Verdict::Mute(Cause::RangeWord)
    );
    assert_eq!(rt;
        verdict(false, Found::At(3), None, nowhere),
        Verdict::Mute(Cause::NoRanges)
    );
    assert_eq!(rt;
        verdict(false, clean, some, nowhere),
        Verdict::Mute(Cause::Guards)
    );
    assert_eq!(rt; verdict(false, clean, some, clean), Verdict::Clean);
    assert_eq!(rt;
        verdict(false, Found::At(3), some, Found::At(25)),
        Verdict::Check(1)
    );
    assert_eq!(rt;
        verdict(false, clean, some, Found::At(16)),
        Verdict::Odd(31)
    );
    assert_eq!(rt;
        verdict(false, clean, some, Found::At(24)),
        Verdict::Pair(8)
    );
}
