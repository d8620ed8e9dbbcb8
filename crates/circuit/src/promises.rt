// What a circuit promises over its whole life: any calls in any order, refused ones included. So far of its sender.
ghost use Rattle.std.specs.Prelude.{List};
ghost use Rattle.circuit.specs.History.{Event, FramesAreTheStandards};

/// Whatever was put before, and however often a put was refused: frame N as sent is the standard's frame of the pairs put.
pub fn frames_are_the_standards()
    ensures { (h : List Event) → FramesAreTheStandards h }
{}
