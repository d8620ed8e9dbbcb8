// A block as it is coded: its 32 samples and its follower, each within -8192 to 8191.
ghost use Rattle.std.specs.Prelude.{◌≡◌, ℕ, ◌^◌, ◌<◌, length, pos, Decides, MatchOption, slice_index_or};
ghost use Rattle.std.specs.Int.Signed.{mag};

/// Samples of a block.
pub const BLOCK: usize = 32;

const WITH_FOLLOWER: usize = BLOCK + 1;

/// A block's samples and its follower, the first sample of the next block.
#[derive(Clone, Copy)]
pub struct Block {
    pub samples: [i32; WITH_FOLLOWER],
    ghost all: { length samples ≡ 33 },
    ghost bounded: { (k : ℕ) → mag (slice_index_or samples k (pos 0)) < 2 ^ 13 },
}

// Whether each of them is a sample.
fn are_samples(values: &[i32]) -> bool
    ensures { Decides result ((k : ℕ) → mag (slice_index_or values.now k (pos 0)) < 2 ^ 13) }
{
    values.iter().all(|value| (-8192..=8191).contains(value))
}

impl Block {
    /// The block of these samples and their follower; none where one of them is no sample.
    pub fn new(samples: [i32; WITH_FOLLOWER]) -> Option<Block>
        ensures { MatchOption result (((k : ℕ) → mag (slice_index_or samples k (pos 0)) < 2 ^ 13) → ⊥) (λ block. block.samples ≡ samples) }
    {
        if are_samples(&samples) {
            Some(Block { samples })
        } else {
            None
        }
    }
}
