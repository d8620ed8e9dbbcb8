// j43receive: frames of the line to samples of a raw file. The work on a frame is in functions with contracts, and this file
// only joins them.
#![tactic(auto)]

use crate::streams::receive_all;
use anyhow::ensure;
use std::process::ExitCode;
use std::{env, io};
use telling::ended;

mod counts;
mod samples;
mod streams;

fn run(rt: &HostRuntime) -> anyhow::Result<()> {
    ensure!(
        env::args(rt)?.nth(1).is_none(),
        "usage: j43receive < FRAMES > SAMPLES"
    );
    let counts = receive_all(rt)?;
    eprintln!(rt; "{counts}")?;
    Ok(())
}

fn main(rt: HostRuntime) -> io::Result<ExitCode> {
    ended(&rt, run(&rt))
}
