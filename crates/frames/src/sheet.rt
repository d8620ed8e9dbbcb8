// The sheet on which a frame first stands: a cell, 0 or 1, for each bit but the last of each group. Words of any law are laid
// out on it and collected from it by one text, and it is packed into octets.
ghost use Rattle.std.specs.Prelude.{◌≡◌, ℕ, ◌+◌, ◌*◌, ◌%◌, ◌^◌, ◌<◌, ◌≤◌, length, slice_index};
ghost use Rattle.guards.specs.Bits.{number};
ghost use Rattle.frames.specs.Places.{lies_at};
ghost use Rattle.frames.specs.Frame.{carried, packed, bit_at, heard_by};
ghost use Rattle.frames.specs.Content.{pair_in, listed};
ghost use Rattle.frames.specs.Sheet.{bit_of, start_of, half_of, offset_in, over, word_at};

use crate::content::{Frame, GuardedBlock};
use crate::letters::{A, B, C, D, FIRST_CHECKS, GROUP_CELLS, Letter, RANGES, Run, SECOND_CHECKS};
use crate::line::FRAME_OCTETS;
use blocks::{EvenWords, HALF, OddWords};
use std::array;
use words::FixedLength;

// A frame is 8 groups of 80 bits, which are 10 octets.
const GROUPS: usize = 8;

const GROUP_BITS: usize = 80;

const GROUP_OCTETS: usize = 10;

const OCTET_BITS: usize = 8;

const CELLS: usize = GROUPS * GROUP_CELLS;

#[derive(Drop)]
pub(crate) struct Sheet {
    pub(crate) cells: [u8; CELLS],
    ghost all: { length cells ≡ 632 },
    ghost bits: { (c : ℕ) → slice_index cells c ≤ 1 },
}

// Bit i of a frame's octets.
#[tactic(auto, using(std::proofs::lemmas::Nat::and_mask), unfolding(crate::specs::Frame::bit_at))]
fn bit_at(octets: &[u8; FRAME_OCTETS], i: usize) -> u8
    requires { i < 640 }
    ensures value { result ≡ bit_at octets.now i }
    ensures small { result ≤ 1 }
{
    octets[i / OCTET_BITS] >> (OCTET_BITS - 1 - i % OCTET_BITS) & 1
}

impl Sheet {
    // The sheet of what a frame carries. The cells of service bits stay 0.
    pub(crate) fn of_frame(frame: &Frame) -> Sheet
        ensures { (i : ℕ) → i < 640 → bit_of result.cells i ≡ carried (pair_in frame.now) (lies_at i) }
    {
        let mut sheet = Sheet { cells: [0; CELLS] };
        sheet.write_words(&A, &frame.first.odd.words);
        sheet.write_words(&B, &frame.second.even.words);
        sheet.write_words(&C, &frame.first.even.words);
        sheet.write_words(&D, &frame.second.odd.words);
        sheet.write_word(&RANGES, frame.ranges);
        sheet.write_word(&FIRST_CHECKS, u16::from(frame.first.checks));
        sheet.write_word(&SECOND_CHECKS, u16::from(frame.second.checks));
        sheet
    }

    // The sheet of a frame's octets.
    pub(crate) fn of_octets(octets: &[u8; FRAME_OCTETS]) -> Sheet
        ensures { (i : ℕ) → i < 640 → i % 80 < 79 → bit_of result.cells i ≡ bit_at octets.now i }
    {
        // Counted by hand: with `array::from_fn`, or over the cells, each place needs a division, and reading takes twice as long.
        let mut cells = [0; CELLS];
        for l in 0..GROUPS {
            for b in 0..GROUP_CELLS {
                cells[GROUP_CELLS * l + b] = bit_at(octets, GROUP_BITS * l + b);
            }
        }
        Sheet { cells }
    }

    // Writes a word into its cells.
    #[tactic(auto, using(crate::proofs::Cells::over_more))]
    fn write_word(&mut self, run: &Run, word: u16)
        ensures { (c : ℕ) → c < 632 → slice_index self.new.cells c ≡ over run.now.start run.now.places.now word c (slice_index self.old.cells c) }
    {
        let bits = run.places.len();
        for (k, place) in run.places.iter().enumerate() {
            self.cells[run.start + *place] = (word >> (bits - 1 - k) & 1) as u8;
        }
    }

    // Reads a word from its cells.
    #[tactic(auto, unfolding(crate::specs::Sheet::word_at))]
    fn read_word(&self, run: &Run) -> u16
        ensures value { result ≡ word_at self.now.cells run.now.start run.now.places.now }
        ensures small { result < 2 ^ length run.now.places.now }
    {
        let mut word = 0;
        for place in run.places {
            word = 2 * word + u16::from(self.cells[run.start + *place]);
        }
        word
    }

    // Writes the words of a letter, one into each half of a group.
    #[tactic(auto, using(crate::proofs::Cells::halves_more))]
    fn write_words<L: FixedLength>(&mut self, letter: &Letter<L>, words: &[u16; HALF])
        ensures { (c : ℕ) → c < 632 → slice_index self.new.cells c ≡ over 0 letter.now.columns.now (slice_index words.now (half_of c)) (offset_in c) (slice_index self.old.cells c) }
    {
        for (i, word) in words.iter().enumerate() {
            self.write_word(&letter.half(i), *word);
        }
    }

    // Reads the words of a letter.
    fn read_words<L: FixedLength>(&self, letter: &Letter<L>) -> [u16; HALF]
        ensures all { length result ≡ 16 }
        ensures value { (i : ℕ) → i < 16 → slice_index result i ≡ word_at self.now.cells (start_of i) letter.now.columns.now }
        ensures small { (i : ℕ) → slice_index result i < 2 ^ L.FixedLength.LENGTH }
    {
        array::from_fn(|i| self.read_word(&letter.half(i)))
    }

    // Octet j of the frame. The bits before it have a cell each, but for the last ones of whole groups; the last octet of a
    // group has seven cells and then a 0.
    fn octet(&self, j: usize) -> u8
        requires { j < 80 }
        ensures { result ≡ number (λ t. bit_of self.now.cells (8 * j + t)) 8 }
    {
        let first = OCTET_BITS * j - j / GROUP_OCTETS;
        let last = first + OCTET_BITS - 1;
        let mut octet = 0;
        for cell in &self.cells[first..last] {
            octet = 2 * octet + *cell;
        }
        if j % GROUP_OCTETS == GROUP_OCTETS - 1 {
            2 * octet
        } else {
            2 * octet + self.cells[last]
        }
    }

    // Packs the sheet into the octets of a frame.
    pub(crate) fn pack(&self, octets: &mut [u8])
        requires { length octets.old ≡ 80 }
        ensures { octets.new ≡ packed (bit_of self.now.cells) }
    {
        for (j, octet) in octets.iter_mut().enumerate() {
            *octet = self.octet(j);
        }
    }

    // What the sheet carries.
    pub(crate) fn read(&self) -> Frame
        ensures { listed (pair_in result) ≡ listed (heard_by (bit_of self.now.cells)) }
    {
        Frame {
            ranges: self.read_word(&RANGES),
            first: GuardedBlock {
                odd: OddWords {
                    words: self.read_words(&A),
                },
                even: EvenWords {
                    words: self.read_words(&C),
                },
                checks: self.read_word(&FIRST_CHECKS) as u8,
            },
            second: GuardedBlock {
                odd: OddWords {
                    words: self.read_words(&D),
                },
                even: EvenWords {
                    words: self.read_words(&B),
                },
                checks: self.read_word(&SECOND_CHECKS) as u8,
            },
        }
    }
}
