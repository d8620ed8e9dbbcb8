// j41gate: takes sound across a border in words of J.41 variant B, or tries that and reports. Raw files come in on
// standard input; the work on a pair is in functions with contracts, and this file only joins them.
#![tactic(auto)]

use crate::task::Task;
use anyhow::bail;
use std::process::ExitCode;
use std::{env, io};
use telling::ended;
use words::VariantB;

mod crossing;
mod gate;
mod refused;
mod streams;
mod tally;
mod task;
mod trial;

fn asked(rt: &HostRuntime) -> io::Result<Option<Task>> {
    let arguments: Vec<String> = env::args(rt)?.skip(1).collect(rt.alloc())?;
    Ok(task::task_of(&arguments))
}

fn run(rt: &HostRuntime) -> anyhow::Result<()> {
    match asked(rt)? {
        None => bail!("usage: j41gate [encode | decode] < INPUT"),
        Some(Task::Report) => streams::report(rt, &VariantB)?,
        Some(Task::Cross(direction)) => match streams::cross_all(rt, direction)? {
            0 => {}
            pairs => bail!("refused {pairs}"),
        },
    }
    Ok(())
}

fn main(rt: HostRuntime) -> io::Result<ExitCode> {
    ended(&rt, run(&rt))
}
