// What arrived and what came of it, in the last line on standard error.
ghost use Rattle.std.specs.Prelude.{◌≡◌, ◌+◌, ◌^◌, ◌<◌, ◌≤◌, Some};
ghost use Rattle.decoder.specs.Findings.{mutes, finding};
ghost use Rattle.fidelity.specs.Kept.{unmarked};
ghost use Rattle.j43receive.specs.Counts.{fresh, noted, Within, line};

use blocks::BLOCK;
use decoder::Verdict;
use reception::Report;
use std::fmt;
use telling::Outcome;

/// The counts so far.
#[derive(Clone, Copy)]
pub struct Counts {
    /// The complete frames of the input.
    pub frames: u64,
    /// The frames among them that were refused.
    pub lost: u64,
    /// The pairs given.
    pub pairs: u64,
    /// The blocks that were muted.
    pub muted: u64,
    /// The samples that are not to be relied on, those of muted blocks among them.
    pub unsound: u64,
}

// Whether a block was muted.
fn muted(verdict: Verdict) -> bool
    ensures value { result ≡ mutes (finding verdict) }
{
    matches!(verdict, Verdict::Mute(_))
}

// Counts the samples that have no mark.
fn unsound(marks: &[bool; BLOCK]) -> u64
    ensures value { result ≡ unmarked marks.now }
    ensures small { result ≤ 32 }
{
    marks.iter().filter(|mark| !**mark).count() as u64
}

impl Counts {
    /// Nothing arrived yet.
    pub fn new() -> Counts
        ensures { result ≡ fresh }
    {
        Counts {
            frames: 0,
            lost: 0,
            pairs: 0,
            muted: 0,
            unsound: 0,
        }
    }

    /// Counts a frame by what became of it.
    // `Within` is no ghost field, since each record that `noted` writes down would then carry proofs.
    pub(crate) fn note(&mut self, outcome: &Outcome<Option<Report>>)
        requires few_frames { self.old.frames + 1 < 2 ^ 58 }
        requires within { Within self.old }
        ensures counts { self.new ≡ noted self.old outcome.now }
        ensures within { Within self.new }
    {
        self.frames += 1;
        if outcome.refused.is_some() {
            self.lost += 1;
        }
        if let Some(report) = outcome.done {
            self.pairs += 1;
            self.muted += u64::from(muted(report.first.verdict))
                + u64::from(muted(report.second.verdict));
            self.unsound += unsound(&report.first.marks) + unsound(&report.second.marks);
        }
    }
}

impl fmt::Display for Counts {
    ghost output = { λ c. Some (line c) };

    fn fmt<W: fmt::Write>(&self, f: &mut fmt::Formatter<W>) -> fmt::Result {
        let Counts {
            frames,
            lost,
            pairs,
            muted,
            unsound,
        } = *self;
        write!(
            f,
            "frames {frames} lost {lost} pairs {pairs} muted {muted} unsound {unsound}"
        )
    }
}
