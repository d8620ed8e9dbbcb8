// A received block, and what is given of it: samples and their marks, and what the block before it needs.
// Promise: each is the defined value, and whatever was sent, sound samples lie near it.
ghost use Rattle.std.specs.Prelude.{◌≡◌, ℕ, ◌+◌, ◌^◌, ◌<◌, [], ◌∷◌, pos, ◌+ℤ◌, slice_index_or};
ghost use Rattle.std.specs.Int.Signed.{mag};
ghost use Rattle.decoder.specs.Levels.{code_of, level as level_of, mean as mean_of, sample as sample_of};
ghost use Rattle.decoder.specs.Samples.{follower_of, pair_of, samples_of};
ghost use Rattle.decoder.specs.Marks.{is_sound, marks_of};
ghost use Rattle.decoder.specs.Closeness.{StaysNear};
ghost use Rattle.decoder.specs.Received.{received};

use crate::follower::Follower;
use crate::heard::Heard;
use crate::judged::Judged;
use crate::level::Level;
use crate::levels::SIDES;
use crate::scale::Scale;
use crate::verdict::Verdict;
use blocks::{BLOCK, EvenWords, HALF, OddWords};
use guards::ranges::Ranges;
use std::array;

/// A block as it came over the line: what is found of it, and its words.
#[derive(Clone, Copy)]
pub struct ReceivedBlock {
    pub judged: Judged,
    pub odd: OddWords,
    pub even: EvenWords,
}

// The level of an odd sample's word, as a follower keeps it.
fn odd_level(word: u16, ranges: Ranges) -> i16
    requires { word < 2 ^ 10 }
    ensures { result ≡ level_of ranges.basic (code_of 512 word) }
{
    Scale::odd(ranges).level_of(word).short()
}

impl ReceivedBlock {
    /// What the block before this one needs to know of it.
    pub fn follower(&self) -> Follower
        ensures { result ≡ follower_of (received self.now) }
    {
        let Some(ranges) = self.judged.audible() else {
            return Follower::Muted;
        };
        match self.judged.verdict {
            Verdict::Odd(1) => Follower::Concealed(odd_level(self.odd.words[1], ranges)),
            _ => Follower::Sound(odd_level(self.odd.words[0], ranges)),
        }
    }

    /// The samples given, in front of this follower.
    pub fn samples(&self, next: &Follower) -> [i32; BLOCK]
        ensures value { result ≡ samples_of (received self.now) next.now }
        ensures close { StaysNear (received self.now) next.now result }
        ensures small { (k : ℕ) → mag (slice_index_or result k (pos 0)) < 2 ^ 13 }
    {
        let Some(ranges) = self.judged.audible() else {
            return [0; BLOCK];
        };
        let heard = Heard {
            block: self,
            ranges,
        };
        let sides = heard.sides(next);
        let shares = heard.shares();
        let pairs: [[i32; 2]; HALF] = array::from_fn(
            |k|
                requires { k < 16 }
                ensures { result ≡ pair_of sides shares k }
            {
                let between = sides[k].mean(sides[k + 1]);
                [sides[k].sample(), shares[k].sample_with(between)]
            },
        );
        let mut samples = [0; BLOCK];
        samples.copy_from_slice(pairs.as_flattened());
        samples
    }

    /// Which of them are sound: neither muted nor concealed, nor beside a concealed or a muted sample that they lean on.
    pub fn marks(&self, next: &Follower) -> [bool; BLOCK]
        ensures { result ≡ marks_of (received self.now).found (is_sound next.now) }
    {
        let mut marks = self.judged.own_marks();
        if !next.is_sound() {
            marks[BLOCK - 1] = false;
        }
        marks
    }
}
