// j43log: frames of the line to a log of its pairs, two lines for each. What is logged of a pair is in a library with contracts, and
// this program only joins reading and writing.
#![tactic(auto)]

use crate::streams::log_all;
use anyhow::ensure;
use std::process::ExitCode;
use std::{env, io};
use telling::ended;

mod streams;

fn run(rt: &HostRuntime) -> anyhow::Result<()> {
    ensure!(
        env::args(rt)?.nth(1).is_none(),
        "usage: j43log < FRAMES > LOG"
    );
    log_all(rt)?;
    Ok(())
}

fn main(rt: HostRuntime) -> io::Result<ExitCode> {
    ended(&rt, run(&rt))
}
