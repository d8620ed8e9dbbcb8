// A frame as it arrived, or its loss. A lost frame carries zeros, so that whoever records it need not ask.
// Promise: what it carries is what lies in the octets, and octets are refused exactly where reading them is.
ghost use Rattle.std.specs.Prelude.{◌≡◌, IfOk, Some, None};
ghost use Rattle.frames.specs.Answers.{answer, reading};
ghost use Rattle.reception.specs.Carried.{carried, carried_by};

use frames::{Frame, FrameFault};

/// What arrives of a frame: what it carries, nothing where it is lost. One path with a flag: with an `Option` of a frame each of the
/// three steps of a record would first have to put a blank one in the place of none.
#[derive(Clone, Copy)]
pub struct Arrived {
    pub lost: bool,
    pub frame: Frame,
}

impl Arrived {
    /// A frame that was taken from the line, sound or not.
    pub fn taken(octets: &[u8]) -> Result<Arrived, FrameFault>
        ensures answer { answer (λ a. (carried a).1) result ≡ reading octets.now }
        ensures carried { IfOk result (λ a. carried a ≡ carried_by (Some octets.now)) }
    {
        let frame = Frame::read(octets)?;
        Ok(Arrived { lost: false, frame })
    }

    /// A frame that was lost.
    pub fn lost() -> Arrived
        ensures { carried result ≡ carried_by None }
    {
        let frame = Frame::blank();
        Arrived { lost: true, frame }
    }
}
