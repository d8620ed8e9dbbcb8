// Frames worked by hand, run against the crate `frames`. They stand apart because a crate with tests is proved twice.
#![tactic(auto)]

#[cfg(test)]
mod tests;
