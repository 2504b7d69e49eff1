// What happens to a running program, and what its status is.
use al_machine::Exception;

/// What happens to a running program.
#[derive(Clone, Copy)]
pub enum Event {
    /// The running task carries out an instruction.
    Instr,
    /// A millisecond passes.
    Tick,
}

/// Why a task is paused.
#[derive(Clone, Copy)]
pub enum Pause {
    /// It is created, and `Go` hasn't been carried out yet.
    Created,
    /// It waits until each library task has passed its declarative part.
    Activating,
    /// It is delayed until a moment, in milliseconds from the start.
    Delayed(i64),
    /// It waits at the entry of the protected object of that number.
    Waiting(u32),
    /// It has ended.
    Ended,
}

/// How a run ended.
#[derive(Clone, Copy)]
pub enum Ending {
    /// All tasks have ended.
    Finished,
    /// An exception was raised in the code of a unit. The unit is given by its number among the image's objects, and the line of its source if the
    /// image has lines.
    Raised {
        kind: Exception,
        unit: usize,
        line: Option<u32>,
    },
    /// The program is damaged: it came to something that has no meaning.
    Stuck,
}

/// The status of a running program.
#[derive(Clone, Copy)]
pub enum Status {
    /// It hasn't ended, and a task is ready or delayed.
    Going,
    /// All tasks have ended.
    Finished,
    /// It hasn't ended, and no task is ready or delayed.
    Idle,
    /// An exception was raised in the code of a unit. The unit is given by its number among the image's objects, and the line of its source if the
    /// image has lines.
    Raised {
        kind: Exception,
        unit: usize,
        line: Option<u32>,
    },
    /// The program is damaged: it came to something that has no meaning.
    Stuck,
}
