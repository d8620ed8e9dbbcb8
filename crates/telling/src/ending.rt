// How a program ends: an error is told on standard error, by its message alone, and makes the status 1.
ghost use Rattle.std.specs.Prelude.{◌≡◌, is_ok, if◌then◌else◌, IfOk};
ghost use Rattle.std.specs.Process.{exit_status};

use std::io;
use std::io::Eprint;
use std::process::ExitCode;

/// Tells the error of a program's run, if it has one, and answers the status.
pub fn ended(rt: &impl Eprint, outcome: anyhow::Result<()>) -> io::Result<ExitCode>
    ensures { IfOk result (λ code. exit_status code ≡ (if is_ok outcome then 0 else 1)) }
{
    match outcome {
        Ok(()) => Ok(ExitCode::SUCCESS),
        Err(error) => {
            eprintln!(rt; "{error}")?;
            Ok(ExitCode::FAILURE)
        }
    }
}
