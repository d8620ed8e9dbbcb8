// The 24 parities of a block's words, and the syndrome of a received block.
// Promise: each parity is the even parity of its group, and the syndrome is that of parities and received checks together.
ghost use Rattle.std.specs.Prelude.{◌≡◌, ◌^◌, ◌<◌};
ghost use Rattle.guards.specs.Division.{guard_syndrome};
ghost use Rattle.guards.specs.Parities.{guards, parities};
ghost use Rattle.guards.specs.Words.{by_sample};

use crate::codes::{ALL_CHECKS, CheckCode, DEGREE, GuardCode, append_parity};

// The samples that each parity covers: p1 to p16 the odd samples in their order, one each; of p17 to p24
// the j-th, from 1, the even pair of samples 4j - 2 and 4j.
const ODD_GROUPS: [usize; 16] = [1, 3, 5, 7, 9, 11, 13, 15, 17, 19, 21, 23, 25, 27, 29, 31];

const EVEN_GROUPS: [[usize; 2]; 8] = [
    [2, 4],
    [6, 8],
    [10, 12],
    [14, 16],
    [18, 20],
    [22, 24],
    [26, 28],
    [30, 32],
];

// The bits of a word that it covers: bits 1 to 5 of an odd sample's ten, bits 1 to 4 of an even sample's nine.
const ODD_BITS: u16 = 0b11_1110_0000;

const EVEN_BITS: u16 = 0b1_1110_0000;

/// p1 to p24 of a block, p1 the highest bit: `odd[i]` is the word of sample 2i + 1, `even[i]` that of sample 2i + 2.
pub fn parities(odd: &[u16; 16], even: &[u16; 16]) -> u32
    ensures value { result ≡ parities (by_sample odd.now even.now) }
    ensures small { result < 2 ^ 24 }
{
    let mut parities = 0;
    // The tables are walked as they stand: constant tables of the groups are a rule of the project.
    for sample in ODD_GROUPS {
        parities = append_parity(parities, (odd[sample / 2] & ODD_BITS).count_ones());
    }
    for [first, second] in EVEN_GROUPS {
        let sum = even[first / 2 - 1] ^ even[second / 2 - 1];
        parities = append_parity(parities, (sum & EVEN_BITS).count_ones());
    }
    parities
}

/// The syndrome of a received block, from its words and its five received checks, C1 their highest bit.
pub fn block_syndrome(odd: &[u16; 16], even: &[u16; 16], checks: u32) -> u32
    ensures { result ≡ guard_syndrome (guards (by_sample odd.now even.now) checks) }
{
    GuardCode.syndrome(parities(odd, even) << DEGREE | checks & ALL_CHECKS)
}
