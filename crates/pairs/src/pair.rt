// The samples of a pair, and its two blocks with their followers.
ghost use Rattle.std.specs.Prelude.{◌≡◌, ℕ, ◌^◌, ◌<◌, length, pos, slice_index_or};
ghost use Rattle.std.specs.Int.Signed.{mag};

/// Samples of a pair.
pub const PAIR: usize = 64;

/// The 64 samples of a pair, each within -8192 to 8191.
#[derive(Clone, Copy)]
pub struct Pair {
    pub samples: [i32; PAIR],
    ghost all: { length samples ≡ 64 },
    ghost bounded: { (k : ℕ) → mag (slice_index_or samples k (pos 0)) < 2 ^ 13 },
}
