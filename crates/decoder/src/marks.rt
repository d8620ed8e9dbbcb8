// Which samples of a block are sound, as far as the block itself tells.
// Promise: whatever is muted or concealed, or leans on a concealed sample, has no mark, and all else has.
ghost use Rattle.std.specs.Prelude.{◌≡◌, true};
ghost use Rattle.decoder.specs.Findings.{finding};
ghost use Rattle.decoder.specs.Marks.{marks_of};

use crate::judged::Judged;
use crate::verdict::Verdict;
use blocks::BLOCK;

impl Judged {
    // The marks of a block in front of a sound follower.
    pub(crate) fn own_marks(&self) -> [bool; BLOCK]
        ensures { result ≡ marks_of (finding self.now.verdict) true }
    {
        let mut marks = [true; BLOCK];
        match self.verdict {
            Verdict::Mute(_) => return [false; BLOCK],
            Verdict::Odd(n) => {
                let n = usize::from(n);
                if n > 1 {
                    marks[n - 2] = false;
                }
                marks[n - 1] = false;
                marks[n] = false;
            }
            Verdict::Pair(j) => {
                let j = usize::from(j);
                marks[4 * j - 3] = false;
                marks[4 * j - 1] = false;
            }
            Verdict::Clean | Verdict::Check(_) => {}
        }
        marks
    }
}
