// Check codes: what every code promises, the (12,8) code of the range word and the (29,24) code of a block's guard bits.
// Promise: both keep the law of a check code, the division leaves the one remainder, and a range word as made has syndrome zero.
ghost use Rattle.std.specs.Prelude.{◌≡◌, ℕ, ◌+◌, ◌*◌, ◌%◌, ◌^◌, ◌<◌};
ghost use Rattle.guards.specs.Codes.{Code};
ghost use Rattle.guards.specs.Division.{Divided, remainder, guard_syndrome, checks_of};
ghost use Rattle.guards.specs.Parities.{guards, parities as parities_of};
ghost use Rattle.guards.specs.OfRanges.{code_of};
ghost use Rattle.guards.specs.RangeWord.{range_syndrome, range_word, range_word_syndrome};
ghost use Rattle.guards.specs.Laws.{range_law, guard_law};

use crate::ranges::Ranges;

/// A code of some positions, counted from 1, that gives every set of them a syndrome.
/// A set is a number, position 1 its highest bit; what is above the code's positions counts for nothing.
pub trait CheckCode {
    ghost positions: { ℕ };

    ghost syndrome: { ℕ → ℕ };

    /// How many positions the code has.
    fn positions(&self) -> u32
        ensures { result ≡ positions };

    /// The syndrome of a set of positions.
    fn syndrome(&self, set: u32) -> u32
        ensures { result ≡ syndrome set };

    ghost code: { Code positions syndrome };
}

// A number with one bit more below its own, the parity of so many ones.
pub(crate) fn append_parity(number: u32, ones: u32) -> u32
    requires { number < 2 ^ 31 }
    ensures { result ≡ 2 * number + ones % 2 }
{
    2 * number + ones % 2
}

/// The (12,8) code of the range word: positions 1 to 12 are R1 to R12.
/// A syndrome has a 1 for each of the four checks that is odd, R9's the highest bit.
#[derive(Clone, Copy)]
pub struct RangeCode;

const RANGE_POSITIONS: u32 = 12;

// The four checks as sets of positions: R9 to R12, each with the positions of its sum.
const RANGE_CHECKS: [u32; 4] = [
    0b1110_0010_1000,
    0b1001_1011_0100,
    0b0101_0111_0010,
    0b0010_1101_0001,
];

impl CheckCode for RangeCode {
    ghost positions = { 12 };

    ghost syndrome = { range_syndrome };

    ghost code = { range_law };

    fn positions(&self) -> u32 {
        RANGE_POSITIONS
    }

    fn syndrome(&self, set: u32) -> u32 {
        let mut syndrome = 0;
        for check in RANGE_CHECKS {
            syndrome = append_parity(syndrome, (set & check).count_ones());
        }
        syndrome
    }
}

// The places of R9 to R12, which are sent inverted.
const INVERTED: u32 = 0b1111;

const CODE_BITS: u32 = 4;

/// R1 to R12 of a pair, R1 the highest bit: the range codes of block 1 and block 2, then their four checks.
pub fn range_word(first: Ranges, second: Ranges) -> u16
    ensures value { result ≡ range_word (code_of first) (code_of second) }
    ensures clean { range_word_syndrome result ≡ 0 }
    ensures small { result < 2 ^ 12 }
{
    let codes = u32::from(first.code()) << CODE_BITS | u32::from(second.code());
    let unchecked = codes << RANGE_CHECKS.len();
    (unchecked | RangeCode.syndrome(unchecked) ^ INVERTED) as u16
}

/// The syndrome of a received range word: a 1 for each check that disagrees.
pub fn range_word_syndrome(word: u16) -> u32
    ensures { result ≡ range_word_syndrome word }
{
    RangeCode.syndrome(u32::from(word) ^ INVERTED)
}

/// The (29,24) code of a block's guard bits: positions 1 to 24 are p1 to p24, 25 to 29 are C1 to C5.
/// A syndrome is the remainder of the bits as a polynomial, p1 the coefficient of z^28.
#[derive(Clone, Copy)]
pub struct GuardCode;

const GUARD_POSITIONS: u32 = 29;

const ALL_GUARDS: u32 = (1 << GUARD_POSITIONS) - 1;

impl CheckCode for GuardCode {
    ghost positions = { 29 };

    ghost syndrome = { guard_syndrome };

    ghost code = { guard_law };

    fn positions(&self) -> u32 {
        GUARD_POSITIONS
    }

    fn syndrome(&self, set: u32) -> u32 {
        remainder(set & ALL_GUARDS)
    }
}

// z^5 + z^2 + 1, and its degree.
const DIVISOR: u32 = 0b10_0101;

pub(crate) const DEGREE: u32 = 5;

/// The remainder of a polynomial modulo 2, bit k the coefficient of z^k, by z^5 + z^2 + 1.
pub fn remainder(polynomial: u32) -> u32
    ensures left { Divided polynomial result }
    ensures only { (s : ℕ) → Divided polynomial s → s ≡ result }
    ensures value { result ≡ remainder polynomial }
{
    // Written out by shift and xor, degree by degree: the form of this division is a rule of the project.
    let mut left = polynomial;
    for degree in (DEGREE..u32::BITS).rev() {
        if left >> degree & 1 == 1 {
            left ^= DIVISOR << (degree - DEGREE);
        }
    }
    left
}

const ALL_PARITIES: u32 = ALL_GUARDS >> DEGREE;

pub(crate) const ALL_CHECKS: u32 = (1 << DEGREE) - 1;

/// C1 to C5, C1 the highest bit, of the 24 parities of a block, p1 the highest.
pub fn checks(parities: u32) -> u32
    ensures value { result ≡ checks_of parities }
    ensures clean { (word : ℕ → ℕ) → parities_of word ≡ parities → guard_syndrome (guards word result) ≡ 0 }
    ensures small { result < 2 ^ 5 }
{
    remainder((parities & ALL_PARITIES) << DEGREE)
}
