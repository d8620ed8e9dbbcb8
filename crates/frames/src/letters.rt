// Where the words of a frame lie on its sheet: the cells of one word, and the four letters A to D whose words fill the
// halves of groups. All places are inside the sheet by type, so laying words out and collecting them asks nothing.
ghost use Rattle.std.specs.Prelude.{◌≡◌, ℕ, ◌+◌, ◌<◌, ◌≤◌, length, slice_index};
ghost use Rattle.frames.specs.Sheet.{start_of};

use std::marker::PhantomData;
use words::{Additional, Basic, FixedLength};

// All bits of a group but the last have a cell, and its second half begins after 40 of them.
pub(crate) const GROUP_CELLS: usize = 79;

const SECOND_HALF: usize = 40;

// The cells of a word's bits, bit 1 first: so many past a first one.
#[derive(Clone, Copy)]
pub(crate) struct Run<'a> {
    pub(crate) start: usize,
    pub(crate) places: &'a [usize],
    ghost few: { length places.now ≤ 16 },
    ghost inside: { (k : ℕ) → start + slice_index places.now k < 632 },
}

// R1 to R12: bit 39 of groups 1 to 8, cells 79 l + 38; then bit 79 of groups 2, 4, 6 and 8, cells 79 l + 78.
pub(crate) const RANGES: Run = Run {
    start: 0,
    places: &[38, 117, 196, 275, 354, 433, 512, 591, 157, 315, 473, 631],
};

// C1 to C5 of the first block: bits 40 and 79 of group 1, bits 40 and 79 of group 3, bit 40 of group 4.
const CHECK_CELLS: [usize; 5] = [39, 78, 197, 236, 276];

pub(crate) const FIRST_CHECKS: Run = Run {
    start: 0,
    places: &CHECK_CELLS,
};

// Those of the second block lie four groups on.
pub(crate) const SECOND_CHECKS: Run = Run {
    start: 4 * GROUP_CELLS,
    places: &CHECK_CELLS,
};

// One of the samples A to D, of which each half of a group has a word: where its bits lie in the half, bit 1 first, a column
// for each bit of the words of its law.
#[derive(Drop)]
pub(crate) struct Letter<'a, L: FixedLength> {
    pub(crate) columns: &'a [usize],
    pub(crate) law: PhantomData<L>,
    ghost sized: { length columns.now ≡ L.FixedLength.LENGTH },
    ghost few: { length columns.now ≤ 16 },
    ghost inside: { (k : ℕ) → slice_index columns.now k < 38 },
}

// A, B, C and D take two places each in turn, for bits k and k + 5 with k = 1 to 4; then come A5 A10 B5 C5 D5 D10.
pub(crate) const A: Letter<Basic> = Letter {
    columns: &[0, 8, 16, 24, 32, 1, 9, 17, 25, 33],
    law: PhantomData,
};

pub(crate) const B: Letter<Additional> = Letter {
    columns: &[2, 10, 18, 26, 34, 3, 11, 19, 27],
    law: PhantomData,
};

pub(crate) const C: Letter<Additional> = Letter {
    columns: &[4, 12, 20, 28, 35, 5, 13, 21, 29],
    law: PhantomData,
};

pub(crate) const D: Letter<Basic> = Letter {
    columns: &[6, 14, 22, 30, 36, 7, 15, 23, 31, 37],
    law: PhantomData,
};

impl<'a, L: FixedLength> Letter<'a, L> {
    // The cells of its word in half a group, the halves counted over the whole sheet.
    pub(crate) fn half(&self, i: usize) -> Run<'a>
        requires { i < 16 }
        ensures start { result.start ≡ start_of i }
        ensures places { result.places.now ≡ self.now.columns.now }
    {
        Run {
            start: GROUP_CELLS * (i / 2) + SECOND_HALF * (i % 2),
            places: &self.columns[..L::LENGTH as usize],
        }
    }
}
