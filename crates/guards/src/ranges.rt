// The two ranges of a block and the four-bit code that stands for both on the line.
// Promise: a value of `Ranges` is always within bounds, and code and ranges undo each other.
ghost use Rattle.std.specs.Prelude.{◌≡◌, ◌<◌, ◌≤◌, ◌⊎◌, Some, MatchOption};
ghost use Rattle.guards.specs.RangeCodes.{range_code};

/// The basic range of a block's odd samples, 0 to 4, and the additional range of its differences, 0 to 2.
#[derive(Clone, Copy, PartialEq, Eq, Debug)]
pub struct Ranges {
    basic: u8,
    additional: u8,
    ghost within: { (basic ≤ 4) × (additional ≤ 2) },
}

/// The widest basic range.
pub const BASIC_MAX: u8 = 4;

/// The widest additional range.
pub const ADDITIONAL_MAX: u8 = 2;

// The code is 14 - basic - 5 * additional: a row for each additional range, from basic range 0 on.
const CODES: [[u8; 5]; 3] = [[14, 13, 12, 11, 10], [9, 8, 7, 6, 5], [4, 3, 2, 1, 0]];

// The ranges, basic and additional, of each code from 0 on: basic + 5 * additional = 14 - code.
const RANGES: [[u8; 2]; 15] = [
    [4, 2],
    [3, 2],
    [2, 2],
    [1, 2],
    [0, 2],
    [4, 1],
    [3, 1],
    [2, 1],
    [1, 1],
    [0, 1],
    [4, 0],
    [3, 0],
    [2, 0],
    [1, 0],
    [0, 0],
];

impl Ranges {
    /// The ranges of these numbers, none where one of them is out of bounds.
    pub fn new(basic: u8, additional: u8) -> Option<Ranges>
        ensures { MatchOption result ((4 < basic) ⊎ (2 < additional)) (λ s. (s.basic ≡ basic) × (s.additional ≡ additional)) }
    {
        if basic > BASIC_MAX || additional > ADDITIONAL_MAX {
            return None;
        }
        Some(Ranges { basic, additional })
    }

    /// The basic range.
    pub fn basic(&self) -> u8
        ensures { result ≡ self.now.basic }
    {
        self.basic
    }

    /// The additional range.
    pub fn additional(&self) -> u8
        ensures { result ≡ self.now.additional }
    {
        self.additional
    }

    /// The code that stands for these ranges, 0 to 14.
    pub fn code(&self) -> u8
        ensures { result ≡ range_code self.now.basic self.now.additional }
    {
        let Ranges { basic, additional } = *self;
        CODES[additional as usize][basic as usize]
    }

    /// The ranges that a code stands for: none from 15 on.
    pub fn from_code(code: u8) -> Option<Ranges>
        ensures answer { MatchOption result (15 ≤ code) (λ s. range_code s.basic s.additional ≡ code) }
        ensures back { (s : Ranges) → range_code s.basic s.additional ≡ code → result ≡ Some s }
    {
        let [basic, additional] = *RANGES.get(code as usize)?;
        Some(Ranges { basic, additional })
    }
}
