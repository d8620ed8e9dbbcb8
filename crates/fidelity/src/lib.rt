// How true a pair comes out of the line, by what befalls its four frames: theorems of the definitions, for whatever pairs are put and
// whatever arrives. There is no code here; a circuit carries them to every history of its calls.
#![tactic(auto)]

ghost use Rattle.fidelity.specs.Crossing.{OneOctetHardlyHarms, NoDamageNoHarm};

/// With one octet of its four frames damaged, however, no block of a pair is muted, few samples lack their mark, and those that
/// have it are close to the samples put.
pub fn one_octet_hardly_harms()
    ensures { OneOctetHardlyHarms }
{}

/// With none damaged every sample has its mark and is as close as its code allows.
pub fn no_damage_no_harm()
    ensures { NoDamageNoHarm }
{}
