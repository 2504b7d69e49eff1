// Replies to commands.
use crate::run::RunReport;
use crate::subject::ReportKind;
use al_base::{Name, Refusal, UnitKey};

/// A reply. The result of the last build is written as the library holds it, so it takes no memory.
pub enum Reply {
    /// No bytes.
    Nothing,
    /// The edit was made.
    Done,
    /// The command is refused.
    Refused(Refusal),
    /// The result of the build that was just made.
    LastBuild,
    /// A report about the last build.
    Report(ReportKind),
    /// The files, each with its sound unit.
    Units(Vec<(Name, Option<UnitKey>)>),
    /// The units that are obsolete since the last build.
    Obsolete(Vec<UnitKey>),
    /// The output of a run, and how it ended.
    RunReport(RunReport),
}

impl Drop for Reply {
    fn drop(self) {
        match self {
            Reply::Nothing => {}
            Reply::Done => {}
            Reply::Refused(_) => {}
            Reply::LastBuild => {}
            Reply::Report(_) => {}
            Reply::Units(_) => {}
            Reply::Obsolete(_) => {}
            Reply::RunReport(_) => {}
        }
    }
}
