// How the program ended, and its exit status.
ghost use Rattle.adalib.specs.Status.{status_of};
ghost use Rattle.std.specs.Prelude.{◌≡◌};
ghost use Rattle.std.specs.Process.{exit_status};

use al_session::{Device, Ended};
use std::process::ExitCode;

/// How the program ended.
#[derive(Drop)]
pub enum Outcome {
    /// A session was served: to its end, to a put whose bytes aren't there as announced, or to the failure of a device.
    Served(Result<Ended, Device>),
    /// The words of the command line have another form.
    Usage,
    /// The file can't be opened.
    Unopened,
    /// Memory is refused outside the session.
    NoMemory,
}

/// The program's exit status.
pub fn exit_code(outcome: Outcome) -> ExitCode
    ensures { exit_status result ≡ status_of outcome }
{
    match outcome {
        Outcome::Served(Ok(Ended::Quit)) => ExitCode::from(0),
        Outcome::Served(Ok(Ended::BadLength)) => ExitCode::from(2),
        Outcome::Served(Err(_)) => ExitCode::from(1),
        Outcome::Usage => ExitCode::from(2),
        Outcome::Unopened | Outcome::NoMemory => ExitCode::from(1),
    }
}
