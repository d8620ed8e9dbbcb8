// Circuits at work, run against the crate `circuit`. They stand apart because a crate with tests is proved twice.
#![tactic(auto)]

#[cfg(test)]
mod lines;
#[cfg(test)]
mod tests;
