// The result of a run.
use al_base::UnitKey;

/// An exception that a program can raise (ARM 11.1).
#[derive(Clone, Copy)]
pub enum Exception {
    /// Constraint_Error.
    Constraint,
    /// Program_Error.
    Program,
    /// Storage_Error.
    Storage,
}

/// How a run ended.
#[derive(Drop)]
pub enum RunEnd {
    /// The main program and all tasks are complete.
    Finished,
    /// Every task waits, and no step can be made.
    Idle,
    /// The allowed number of steps was reached.
    Spent,
    /// The next step has no meaning in the machine.
    Stuck,
    /// An exception was raised in the code of this unit, on this line of its source if that is known, and ended the run.
    Raised {
        exception: Exception,
        unit: UnitKey,
        line: Option<u32>,
    },
}

/// The output of a run, and how it ended.
#[derive(Drop)]
pub struct RunReport {
    /// The bytes that it put.
    pub output: Vec<u8>,
    /// How it ended.
    pub ended: RunEnd,
}
