// What the program is asked to do, by its arguments.
ghost use Rattle.std.specs.Prelude.{◌≡◌, map, string_bytes};
ghost use Rattle.j41gate.specs.Task.{by_name, by_arguments};

use crate::crossing::Direction;

/// A task of the program.
#[derive(Clone, Copy)]
pub enum Task {
    /// To try the gate on samples and report.
    Report,
    /// To take sound across.
    Cross(Direction),
}

// No `FromStr`: an error of its own would only be dropped, since any other name is told the usage.
fn named(name: &str) -> Option<Task>
    ensures { result ≡ by_name name.now }
{
    match name {
        "encode" => Some(Task::Cross(Direction::Encode)),
        "decode" => Some(Task::Cross(Direction::Decode)),
        _ => None,
    }
}

/// The task that the arguments name; none for any others.
pub fn task_of(arguments: &[String]) -> Option<Task>
    ensures { result ≡ by_arguments (map string_bytes arguments.now) }
{
    match arguments {
        [] => Some(Task::Report),
        [name] => named(name.as_str()),
        _ => None,
    }
}
