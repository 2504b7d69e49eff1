// Exit statuses.
ghost use Rattle.std.specs.Prelude.{◌≡◌};
ghost use Rattle.std.specs.Process.{exit_status};
ghost use Rattle.al_folder.specs.Status.{status_of, ending_of};

use crate::runs::RunEnd;
use std::process::ExitCode;

/// How the program ended.
#[derive(Clone, Copy)]
pub enum Ending {
    /// All that was asked for is done.
    Done,
    /// There is no program: files can't be read, a source has errors, or an image is damaged.
    NotBuilt,
    /// The command line is wrong.
    Usage,
    /// An exception ended the run.
    ByException,
}

/// How the program ends after it ran an image.
pub fn ending_of(end: &RunEnd) -> Ending
    ensures { result ≡ ending_of end.now }
{
    match end {
        RunEnd::Finished | RunEnd::Idle | RunEnd::Spent => Ending::Done,
        RunEnd::Stuck => Ending::NotBuilt,
        RunEnd::Raised {
            exception: _,
            unit: _,
            line: _,
        } => Ending::ByException,
    }
}

/// The exit status: 0 if all is done, 1 without a program, 2 for a wrong command line, 3 after an exception.
pub fn exit_code(ending: Ending) -> ExitCode
    ensures { exit_status result ≡ status_of ending }
{
    match ending {
        Ending::Done => ExitCode::from(0),
        Ending::NotBuilt => ExitCode::from(1),
        Ending::Usage => ExitCode::from(2),
        Ending::ByException => ExitCode::from(3),
    }
}
