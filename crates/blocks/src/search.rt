// The range search: both ranges of a block, each the smallest that holds. That there are such ranges follows from the bounds on
// samples: range 4 holds every sample, and additional range 2 every difference of samples that the basic range holds.
ghost use Rattle.std.specs.Prelude.{◌≡◌, ℕ, ◌*◌, ◌^◌, ◌<◌, ◌≤◌};
ghost use Rattle.std.specs.Int.Signed.{mag};
ghost use Rattle.blocks.specs.Ranges.{Ranged, difference, differences};
ghost use Rattle.blocks.specs.Peaks.{Peak};

use crate::block::Block;
use crate::coded::HALF;
use guards::ranges::{ADDITIONAL_MAX, BASIC_MAX, Ranges};
use std::array;
use words::magnitude;

fn difference(before: i32, here: i32, after: i32) -> i32
    requires small_before { mag before < 2 ^ 13 }
    requires small_here { mag here < 2 ^ 13 }
    requires small_after { mag after < 2 ^ 13 }
    ensures { result ≡ difference before here after }
{
    2 * here - before - after
}

// The differences at the even samples of a block.
pub(crate) fn differences(block: &Block) -> [i32; HALF]
    ensures { result ≡ differences block.now.samples }
{
    array::from_fn(|i| difference(
        block.samples[2 * i],
        block.samples[2 * i + 1],
        block.samples[2 * i + 2],
    ))
}

// The greatest magnitude, 0 of no values.
fn peak(values: &[i32]) -> u32
    ensures { Peak values.now result }
{
    values
        .iter()
        .map(|value| magnitude(*value))
        .max()
        .unwrap_or(0)
}

// The smallest range up to `top` that holds this magnitude, where range 0 holds `half` magnitudes.
fn range_of(greatest: u32, half: u32, top: u8) -> u8
    requires few_codes { half ≤ 2 ^ 15 }
    requires few_ranges { top ≤ 4 }
    requires held { greatest < half * 2 ^ top }
    ensures top { result ≤ top }
    ensures holds { greatest < half * 2 ^ result }
    ensures least { (k : ℕ) → k < result → half * 2 ^ k ≤ greatest }
{
    (0..top)
        .find(|range| greatest < half << *range)
        .unwrap_or(top)
}

// Basic range 0 holds -512 to 511; so does additional range 0 at basic range 0.
const HALF_AT_ZERO: u32 = 512;

// Both ranges of a block whose differences are known.
pub(crate) fn ranges_with(block: &Block, diffs: &[i32; HALF]) -> Ranges
    requires { diffs.now ≡ differences block.now.samples }
    ensures { Ranged block.now.samples result.basic result.additional }
{
    let basic = range_of(peak(&block.samples), HALF_AT_ZERO, BASIC_MAX);
    let additional = range_of(peak(diffs), HALF_AT_ZERO << basic, ADDITIONAL_MAX);
    Ranges::new(basic, additional).unwrap()
}

/// The basic and the additional range of a block.
pub fn ranges(block: &Block) -> (u8, u8)
    ensures { Ranged block.now.samples result.0 result.1 }
{
    // Answered as two numbers: the form of this answer is a rule of the project.
    let ranges = ranges_with(block, &differences(block));
    (ranges.basic(), ranges.additional())
}
