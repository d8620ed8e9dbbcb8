// Guard bits: what lets a receiver find the one hurt position of a block or of a range word.
// `ranges` has the two ranges of a block and their code, `codes` the check codes with the range word and the checks,
// `parities` the parities of a block's words, `locator` the one answer to a syndrome for every code, `mending` a received
// range word put right.
#![tactic(auto)]

pub mod codes;
pub mod locator;
pub mod mending;
pub mod parities;
pub mod ranges;
#[cfg(test)]
mod tests;
