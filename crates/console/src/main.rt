// The console: one command a line on standard input, one answer a line on standard output. A bench for engineers, and the
// way in which outside vectors are run. docs/CONSOLE.md has the commands.
#![tactic(auto)]

mod command;
mod console;
mod faults;
mod law;
mod lines;
mod outlet;
mod reply;
mod tokens;

use crate::console::Console;
use crate::faults::ConsoleFault;
use crate::outlet::OutletLaw;
use std::io;
use std::io::{BufRead, BufReader};

fn main(rt: HostRuntime) -> io::Result<()> {
    let heap = rt.alloc();
    let mut console = Console::new(heap, OutletLaw::Linear);
    for line in BufReader::new(heap, rt.stdin())?.lines(heap) {
        let line = line?;
        if !line.is_empty() {
            match console.answer(line.as_str()) {
                Ok(reply) => println!(rt; "{reply}")?,
                Err(ConsoleFault::Memory(fault)) => return Err(fault.into()),
                Err(fault) => println!(rt; "{fault}")?,
            }
        }
    }
    Ok(())
}
