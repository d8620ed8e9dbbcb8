// Frames on the line: written into 80 octets, and read from whatever 80 octets arrive. What is written reads back as the
// same frame, and what is read, written again, agrees with the octets in every bit that is not ignored.
ghost use Rattle.std.specs.Prelude.{◌≡◌, IfOk};
ghost use Rattle.words.specs.Answers.{gives};
ghost use Rattle.frames.specs.Frame.{octets_of};
ghost use Rattle.frames.specs.Content.{pair_in, listed};
ghost use Rattle.frames.specs.Answers.{answer, writing, written, all_ones, reading, Alike};

use crate::content::Frame;
use crate::faults::FrameFault;
use crate::sheet::Sheet;

/// The octets of a frame: 8 groups of 80 bits.
pub const FRAME_OCTETS: usize = 80;

// Whether all bits are 1.
fn all_ones(octets: &[u8]) -> bool
    ensures { result ≡ all_ones octets.now }
{
    octets.iter().all(|octet| *octet == u8::MAX)
}

impl Frame {
    /// Writes the frame's octets, the first bit highest in the first of them.
    #[tactic(auto, using(crate::proofs::Whole::reads_itself))]
    pub fn write(&self, octets: &mut [u8]) -> Result<(), FrameFault>
        ensures answer { answer (λ x. x) result ≡ writing octets.old }
        ensures buffer { octets.new ≡ written (pair_in self.now) octets.old }
        ensures back { reading (octets_of (pair_in self.now)) ≡ gives (listed (pair_in self.now)) }
    {
        if octets.len() != FRAME_OCTETS {
            return Err(FrameFault::Room(octets.len()));
        }
        Sheet::of_frame(self).pack(octets);
        Ok(())
    }

    /// Reads a frame that arrived, sound or not.
    pub fn read(octets: &[u8]) -> Result<Frame, FrameFault>
        ensures answer { answer (λ f. listed (pair_in f)) result ≡ reading octets.now }
        ensures again { IfOk result (λ f. Alike (octets_of (pair_in f)) octets.now) }
    {
        let Ok(octets) = <&[u8; FRAME_OCTETS]>::try_from(octets) else {
            return Err(FrameFault::Length(octets.len()));
        };
        if all_ones(octets) {
            return Err(FrameFault::AllOnes);
        }
        Ok(Sheet::of_octets(octets).read())
    }
}
