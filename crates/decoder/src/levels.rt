// The levels of a received block that is heard: of its odd samples, with a hurt one concealed, of the follower beside them, and
// what the even samples' own words add. Each is worked out once.
ghost use Rattle.std.specs.Prelude.{◌≡◌, ℕ, ◌+◌, ◌*◌, ◌/◌, ◌%◌, ◌<◌, ◌≤◌, slice_index_or, pos};
ghost use Rattle.decoder.specs.Samples.{stand_in, odd_level, side, share};
ghost use Rattle.decoder.specs.Received.{received};

use crate::follower::Follower;
use crate::heard::Heard;
use crate::level::Level;
use crate::scale::Scale;
use crate::verdict::Verdict;
use blocks::HALF;

// The odd samples and the follower.
pub(crate) const SIDES: usize = HALF + 1;

// The place of the last odd sample among these.
const LAST: usize = HALF - 1;

// The level that stands in for that of the odd sample at place i.
fn stand_in(levels: &[Level; HALF], i: usize) -> Level
    requires { i < 16 }
    ensures { result ≡ stand_in (λ n. slice_index_or levels.now (n / 2) (pos 0)) (2 * i + 1) }
{
    match i {
        0 => levels[1],
        LAST => levels[LAST - 1],
        _ => levels[i - 1].mean(levels[i + 1]),
    }
}

impl Heard<'_> {
    // The levels of the odd samples, with a hurt one concealed.
    fn odd_levels(&self) -> [Level; HALF]
        ensures { (k : ℕ) → k < 16 → slice_index_or result k (pos 0) ≡ odd_level (received self.now.block.now) (2 * k + 1) }
    {
        let mut levels = Scale::odd(self.ranges).levels_of(&self.block.odd.words);
        if let Verdict::Odd(n) = self.block.judged.verdict {
            let i = usize::from(n / 2);
            levels[i] = stand_in(&levels, i);
        }
        levels
    }

    // The levels on both sides of the even samples: those of the odd samples, and the follower's.
    pub(crate) fn sides(&self, next: &Follower) -> [Level; SIDES]
        ensures { (k : ℕ) → k < 17 → slice_index_or result k (pos 0) ≡ side (received self.now.block.now) next.now (2 * k + 1) }
    {
        let levels = self.odd_levels();
        let mut sides = [next.level_after(levels[HALF - 1]); SIDES];
        sides[..HALF].copy_from_slice(&levels);
        sides
    }

    // What the words of the even samples add, nothing where their pair is hurt.
    pub(crate) fn shares(&self) -> [Level; HALF]
        ensures { (k : ℕ) → k < 16 → slice_index_or result k (pos 0) ≡ share (received self.now.block.now) (2 * k + 2) }
    {
        let mut shares = Scale::even(self.ranges).levels_of(&self.block.even.words);
        if let Verdict::Pair(j) = self.block.judged.verdict {
            let j = usize::from(j);
            shares[2 * j - 2] = Level::new(0);
            shares[2 * j - 1] = Level::new(0);
        }
        shares
    }
}
