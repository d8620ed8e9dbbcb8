// The follower of a block: the first sample of the next one, as far as sample 32 leans on it.
ghost use Rattle.std.specs.Prelude.{◌≡◌};
ghost use Rattle.decoder.specs.Marks.{is_sound};
ghost use Rattle.decoder.specs.Samples.{after};

use crate::level::Level;

/// What a block needs to know of the next one: the level of its sample 1, in quarters of a sample unit.
#[derive(Clone, Copy, PartialEq, Eq, Debug)]
pub enum Follower {
    /// The next block is muted and has no levels.
    Muted,
    /// Sample 1 of the next block is concealed, with this level.
    Concealed(i16),
    /// It arrived with this level.
    Sound(i16),
}

impl Follower {
    // The level after sample 32: the block's own last one serves twice where the next block is muted.
    pub(crate) fn level_after(&self, own: Level) -> Level
        ensures { result ≡ after self.now own }
    {
        match *self {
            Follower::Muted => own,
            // Two arms, since a pattern of two variants that binds a signed number gets no proof.
            Follower::Concealed(level) => Level::new(i32::from(level)),
            Follower::Sound(level) => Level::new(i32::from(level)),
        }
    }

    // Whether sample 32 may lean on it and be sound.
    pub(crate) fn is_sound(&self) -> bool
        ensures { result ≡ is_sound self.now }
    {
        match self {
            Follower::Sound(_) => true,
            Follower::Concealed(_) | Follower::Muted => false,
        }
    }
}
