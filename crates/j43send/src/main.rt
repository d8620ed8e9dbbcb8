// j43send: samples of a raw file to frames of the line. The work on a pair is in functions with contracts, and this file
// only joins them.
#![tactic(auto)]

use crate::streams::send_all;
use anyhow::ensure;
use std::process::ExitCode;
use std::{env, io};
use telling::ended;

mod counts;
mod sending;
mod streams;

fn run(rt: &HostRuntime) -> anyhow::Result<()> {
    ensure!(
        env::args(rt)?.nth(1).is_none(),
        "usage: j43send < SAMPLES > FRAMES"
    );
    let counts = send_all(rt)?;
    ensure!(counts.refused == 0, "{counts}");
    eprintln!(rt; "{counts}")?;
    Ok(())
}

fn main(rt: HostRuntime) -> io::Result<ExitCode> {
    ended(&rt, run(&rt))
}
