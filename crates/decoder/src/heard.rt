// A received block that is heard, with its ranges. That they are its own is part of the type, so its levels have nothing to ask.
ghost use Rattle.std.specs.Prelude.{◌≡◌, Some};

use crate::received::ReceivedBlock;
use guards::ranges::Ranges;

#[derive(Clone, Copy)]
pub(crate) struct Heard<'a> {
    pub(crate) block: &'a ReceivedBlock,
    pub(crate) ranges: Ranges,
    ghost ranged: { block.now.judged.ranges ≡ Some ranges },
}
