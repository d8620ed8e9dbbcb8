// Words of a sign and a magnitude: `half` codes of each sign, each 2^exponent values wide. Written and proved once, over
// both numbers, for the basic and the additional law.
ghost use Rattle.std.specs.Prelude.{◌≡◌, ◌^◌, ◌<◌, ◌≤◌};
ghost use Rattle.words.specs.Answers.{answer, making, reading};
ghost use Rattle.words.specs.Signed.{signed};

use crate::faults::WordFault;
use crate::signs::magnitude;

// A power of two as a width.
fn width_of(exponent: u8) -> u32
    requires { exponent ≤ 7 }
    ensures value { result ≡ 2 ^ exponent }
    ensures some { 0 < result }
    ensures small { result ≤ 128 }
{
    1 << exponent
}

// The word of a value. The code is got by a shift, since a division would be the dearest step of the sender.
pub(crate) fn make_signed(half: u32, exponent: u8, value: i32) -> Result<u16, WordFault>
    requires some_codes { 0 < half }
    requires few_codes { half ≤ 512 }
    requires narrow { exponent ≤ 7 }
    ensures { answer result ≡ making (signed 10 half (2 ^ exponent)) value }
{
    let code = magnitude(value) >> exponent;
    if code >= half {
        return Err(WordFault::Outside(0));
    }
    if value >= 0 {
        Ok(code as u16)
    } else {
        Ok((half + code) as u16)
    }
}

// The middle of a word's cell.
pub(crate) fn read_signed(half: u32, exponent: u8, word: u16) -> Result<i32, WordFault>
    requires some_codes { 0 < half }
    requires few_codes { half ≤ 512 }
    requires narrow { exponent ≤ 7 }
    ensures { answer result ≡ reading (signed 10 half (2 ^ exponent)) word }
{
    let word = u32::from(word);
    if word >= 2 * half {
        return Err(WordFault::TooLong(0));
    }
    let width = width_of(exponent);
    if word < half {
        Ok((word * width + (width - 1) / 2) as i32)
    } else {
        Ok(-(((word - half) * width + (width - (width - 1) / 2)) as i32))
    }
}
