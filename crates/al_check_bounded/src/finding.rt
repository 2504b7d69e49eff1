// The verdict over a unit.
use al_base::Diagnostic;
use al_check_promises::SoundUnit;
use al_query::ReadLog;
use al_view::Seq;

/// The verdict over a unit: its errors, or the unit if it has none.
#[derive(Drop)]
pub enum UnitVerdict {
    /// The errors of the unit; E700 if it can't be compiled yet.
    Faulty(Seq<Diagnostic>),
    /// The unit, which has no errors.
    Sound(SoundUnit),
}

/// The verdict over a unit, and what was asked for it.
#[derive(Drop)]
pub struct UnitResult {
    /// The verdict.
    pub finding: UnitVerdict,
    /// The questions that were asked, with their answers.
    pub log: ReadLog,
}
