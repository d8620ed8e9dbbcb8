// J.41 variant B: 12 bits, finer steps near zero. A word is a sign, three bits for the segment, seven for the place in it,
// and a parity bit over the first seven of these eleven.
ghost use Rattle.std.specs.Prelude.{◌≡◌, refl, ◌+◌, ◌<◌, ◌≤◌};
ghost use Rattle.words.specs.VariantB.{variant_b, code_of, first_of, step_of, parity};
ghost use Rattle.words.specs.GateRule.{gate_rule, gate_wide};

use crate::faults::WordFault;
use crate::law::{FixedLength, Outlet, WordLaw};
use crate::signs::magnitude;

/// The words that neighbours exchange.
#[derive(Clone, Copy)]
pub struct VariantB;

// One more than the largest magnitude, code and word.
const MAGNITUDES: u32 = 8192;

const WORDS: u16 = 4096;

// The sign among the eleven bits before the parity, and the segment's lowest bit.
const SIGN: u32 = 1024;

const SEGMENT: u32 = 128;

// The code of a magnitude.
fn code_of(a: u32) -> u32
    requires { a < 8192 }
    ensures value { result ≡ code_of a }
    ensures small { result < 896 }
{
    if a < 256 {
        a
    } else if a < 512 {
        256 + (a - 256) / 2
    } else if a < 1024 {
        384 + (a - 512) / 4
    } else if a < 2048 {
        512 + (a - 1024) / 8
    } else if a < 4096 {
        640 + (a - 2048) / 16
    } else {
        768 + (a - 4096) / 32
    }
}

// The lowest magnitude of a code, and how many magnitudes have it.
fn span_of(c: u32) -> (u32, u32)
    requires { c < 896 }
    ensures first { result.0 ≡ first_of c }
    ensures step { result.1 ≡ step_of c }
    ensures small { result.0 + result.1 ≤ 8192 }
    ensures some { 0 < result.1 }
{
    if c < 256 {
        (c, 1)
    } else if c < 384 {
        (256 + (c - 256) * 2, 2)
    } else if c < 512 {
        (512 + (c - 384) * 4, 4)
    } else if c < 640 {
        (1024 + (c - 512) * 8, 8)
    } else if c < 768 {
        (2048 + (c - 640) * 16, 16)
    } else {
        (4096 + (c - 768) * 32, 32)
    }
}

// The parity bit of eleven bits.
fn parity_of(front: u32) -> u32
    ensures value { result ≡ parity front }
    ensures small { result < 2 }
{
    (front / 16).count_ones() % 2
}

impl WordLaw for VariantB {
    const BITS: u32 = 12;

    ghost meaning = { λ _. variant_b };

    ghost cells = { λ _. gate_rule };

    fn word_length(&self) -> u32 {
        Self::BITS
    }

    fn make(&self, value: i32) -> Result<u16, WordFault> {
        let size = magnitude(value);
        if size >= MAGNITUDES {
            return Err(WordFault::Outside(0));
        }
        let code = SEGMENT + code_of(size);
        let front = if value >= 0 { code } else { SIGN + code };
        Ok((2 * front + parity_of(front)) as u16)
    }

    fn read(&self, word: u16) -> Result<i32, WordFault> {
        if word >= WORDS {
            return Err(WordFault::TooLong(0));
        }
        let front = u32::from(word / 2);
        if u32::from(word % 2) != parity_of(front) {
            return Err(WordFault::Parity(0));
        }
        if front % SIGN < SEGMENT {
            return Err(WordFault::NoValue(0));
        }
        let (first, step) = span_of(front % SIGN - SEGMENT);
        if front < SIGN {
            Ok((first + (step - 1) / 2) as i32)
        } else {
            Ok(-((first + step - (step - 1) / 2) as i32))
        }
    }
}

impl FixedLength for VariantB {
    const LENGTH: u32 = Self::BITS;

    ghost LENGTH = { 12 };

    ghost length = { λ _. refl };
}

impl Outlet for VariantB {
    ghost wide = { λ _. gate_wide };
}
