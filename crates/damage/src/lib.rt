// What damage on the line can do. Neighbouring bits of a frame are of different words, so that one damaged octet hurts a
// block in one guard bit at most, and the receiver's checks can point at it.
#![tactic(auto)]

ghost use Rattle.damage.specs.Damage.{OctetsHoldLittle, OneOctetHardlyHurts};

/// A promise: whatever octet of frames N to N + 3 is damaged, and however, at most one guarded or check bit of a block is
/// hit, and at most one bit of a range word; all words that the hit guard bit does not cover stay near.
pub fn one_octet_hits_little()
    ensures apart { OctetsHoldLittle }
    ensures hurt { OneOctetHardlyHurts }
{}
