// What the tasks of a running program are doing, and runs in steps of a few events, for programs that show what happens.
ghost use Rattle.std.specs.Prelude.{◌≡◌, None, slice_get, ◌+◌, ◌<◌, ◌≤◌, ◌^◌, IfOk, OnErr};
ghost use Rattle.al_tasks.specs.Bursts.{went};
ghost use Rattle.al_tasks.specs.Exclusion.{IsLaidOut};
ghost use Rattle.al_tasks.specs.Fits.{Fits};
ghost use Rattle.al_tasks.specs.Looking.{blocking_cause, cause_of, cause_of_first, entering_cause, state_of, innermost, look_at, among_ready, among_paused, look_of, owner_of, place_of_first, number_of_first};
ghost use Rattle.al_instr.specs.Lines.{line_at};
ghost use Rattle.al_tasks.specs.Partitions.{part_of_run};
ghost use Rattle.al_tasks.specs.Runs.{status_of};
ghost use Rattle.al_tasks.specs.World.{unit_at};
ghost use Rattle.al_tasks.specs.Seen.{seen};
ghost use Rattle.al_tasks.specs.declared.event.Status.TheVariants.{Going};
ghost use Rattle.al_tasks.specs.declared.looking.TaskState.TheVariants.{Running};

use crate::events::step;
use crate::program::Program;
use crate::runs::{chosen, since_after, work_on};
use crate::state::State;
use crate::tasks::Task;
use crate::{Event, Pause, World};
use al_base::NoMemory;
use al_link_image::Region;
use al_machine::{Entered, Operation, TaskInstruction, is_entered};

/// What a task is doing.
#[derive(Clone, Copy)]
pub enum TaskState {
    /// It is on the processor.
    Running,
    /// It could run, but another task does.
    Ready,
    /// It is created, and `Go` hasn't been carried out yet.
    Created,
    /// It waits until each library task has passed its declarative part.
    Activating,
    /// It is delayed until a moment, in milliseconds from the start.
    Delayed(i64),
    /// It waits at the entry of the protected object of this number.
    Waiting(u32),
    /// It has ended.
    Ended,
}

/// What a task is doing between two events.
#[derive(Clone, Copy)]
pub struct TaskLook {
    /// 0 is the environment task. The others count from 1, in the order of their creation.
    pub number: u32,
    /// The base priority.
    pub base: u32,
    /// The active priority (ARM D.1).
    pub level: u32,
    /// What it is doing.
    pub state: TaskState,
    /// The number of the protected object that it entered last and is inside.
    pub object: Option<u32>,
    /// The place of its next instruction, in bytes from the beginning of the code.
    pub place: usize,
}

/// Why Program_Error ended a run.
#[derive(Clone, Copy)]
pub enum ErrorCause {
    /// The ceiling of the protected object of this number is below the task's active priority (ARM D.3).
    AboveCeiling {
        object: u32,
        ceiling: u32,
        level: u32,
    },
    /// The task calls an operation of the protected object of this number from inside it.
    Again(u32),
    /// Another task waits at the entry of the protected object of this number (ARM D.7).
    SecondCaller(u32),
    /// The task would wait, or print something, inside the protected object of this number (ARM 9.5.1).
    Blocking(u32),
    /// An instruction raises it.
    Other,
}

/// The result of going on with a run.
#[derive(Clone, Copy)]
pub struct Advanced {
    /// How many events there were.
    pub done: u64,
    /// How many instructions there were since the last tick.
    pub since: u64,
    /// The event. `None` if instructions on words were carried out: they change only their task's place and words.
    pub event: Option<Event>,
}

// The state of a task that is paused.
fn state_of(pause: Pause) -> TaskState
    ensures { result ≡ state_of pause }
{
    match pause {
        Pause::Created => TaskState::Created,
        Pause::Activating => TaskState::Activating,
        Pause::Delayed(moment) => TaskState::Delayed(moment),
        Pause::Waiting(object) => TaskState::Waiting(object),
        Pause::Ended => TaskState::Ended,
    }
}

// The object that was entered last.
fn innermost(held: &[Entered]) -> Option<u32>
    ensures { result ≡ innermost held.now }
{
    match held.first() {
        Some(entered) => Some(entered.object),
        None => None,
    }
}

// What a task in a given state is doing.
fn look_at(state: TaskState, task: &Task) -> TaskLook
    ensures { result ≡ look_at state task.now }
{
    TaskLook {
        number: task.number,
        base: task.base,
        level: task.active,
        state,
        object: innermost(task.held.as_slice()),
        place: task.place,
    }
}

/// What the task of this number is doing, if it is among the ready ones. The first of these is on the processor.
fn among_ready(number: u32, ready: &[Task]) -> Option<TaskLook>
    ensures { result ≡ among_ready number Running ready.now }
{
    let mut state = TaskState::Running;
    for task in ready {
        if task.number == number {
            return Some(look_at(state, task));
        }
        state = TaskState::Ready;
    }
    None
}

/// What the task of this number is doing, if it is among the paused ones.
fn among_paused(number: u32, paused: &[Task]) -> Option<TaskLook>
    ensures { result ≡ among_paused number paused.now }
{
    for task in paused {
        if task.number == number {
            return Some(look_at(state_of(task.pause), task));
        }
    }
    None
}

/// The number of the ready task that is inside an object.
fn owner_of(object: u32, ready: &[Task]) -> Option<u32>
    ensures { result ≡ owner_of object ready.now }
{
    for task in ready {
        if is_entered(task.held.as_slice(), object as usize) {
            return Some(task.number);
        }
    }
    None
}

/// Why a task can't enter an object.
fn entering_cause(object: u32, task: &Task, objects: &[Region]) -> ErrorCause
    ensures { result ≡ entering_cause object task.now (slice_get objects.now object) }
{
    match objects.get(object as usize) {
        Some(region) if region.ceiling < task.active => ErrorCause::AboveCeiling {
            object,
            ceiling: region.ceiling,
            level: task.active,
        },
        _ => ErrorCause::Again(object),
    }
}

/// Why a task can't wait or print something.
fn blocking_cause(task: &Task) -> ErrorCause
    ensures { result ≡ blocking_cause task.now.held }
{
    match task.held.first() {
        Some(entered) => ErrorCause::Blocking(entered.object),
        None => ErrorCause::Other,
    }
}

/// Why an instruction raised Program_Error.
fn cause_of(operation: &Operation, task: &Task, objects: &[Region]) -> ErrorCause
    ensures { result ≡ cause_of operation.now task.now objects.now }
{
    match operation {
        Operation::Task(TaskInstruction::Enter(object)) => entering_cause(*object, task, objects),
        Operation::Task(TaskInstruction::EnterEntry(object)) => {
            if task.held.is_empty() {
                entering_cause(*object, task, objects)
            } else {
                blocking_cause(task)
            }
        }
        Operation::Task(TaskInstruction::Block(object)) => ErrorCause::SecondCaller(*object),
        Operation::Task(TaskInstruction::Sleep) => blocking_cause(task),
        Operation::Output(_) => blocking_cause(task),
        _ => ErrorCause::Other,
    }
}

/// Carries out instructions on words of the running task up to the next tick, or else one event.
fn advance(
    program: &Program,
    state: &mut State,
    n: u64,
    since: u64,
    most: u64,
) -> Result<Advanced, NoMemory>
    requires fits { Fits program.now (seen state.old) }
    requires laid { IsLaidOut program.now }
    requires some { 1 ≤ most }
    requires room { since + most < 2 ^ 64 }
    requires going { status_of (seen state.old) ≡ Going }
    ensures ok { IfOk result (λ a. (1 ≤ a.done) × (a.done ≤ most) × (went program.now n a.done (since, seen state.old) ≡ (a.since, seen state.new))) }
    ensures few { IfOk result (λ a. a.since ≤ since + a.done) }
    ensures err { OnErr result (seen state.new ≡ seen state.old) }
    ensures fits { Fits program.now (seen state.new) }
{
    let event = chosen(state, n, since);
    if let Event::Instr = event {
        let done = work_on(program, state, (n - since).min(most));
        if done > 0 {
            return Ok(Advanced {
                done,
                since: since + done,
                event: None,
            });
        }
    }
    step(program, state, event)?;
    Ok(Advanced {
        done: 1,
        since: since_after(since, event),
        event: Some(event),
    })
}

impl World {
    /// What the task of this number is doing; `None` if there is no such task yet.
    pub fn look(&self, number: u32) -> Option<TaskLook>
        ensures { result ≡ look_of self.now.world number }
    {
        match among_ready(number, self.state.ready.as_slice()) {
            Some(look) => Some(look),
            None => among_paused(number, self.state.paused.as_slice()),
        }
    }

    /// How many tasks are created besides the environment task.
    pub fn created(&self) -> u32
        ensures { result ≡ self.now.world.created }
    {
        self.state.created
    }

    /// The clock, in milliseconds from the start.
    pub fn clock(&self) -> i64
        ensures { result ≡ self.now.world.clock }
    {
        self.state.clock
    }

    /// The place of the running task's next instruction; `None` if no task is ready.
    pub fn place(&self) -> Option<usize>
        ensures { result ≡ place_of_first self.now.world.ready }
    {
        match self.state.ready.first() {
            Some(task) => Some(task.place),
            None => None,
        }
    }

    /// The number of the running task; `None` if no task is ready.
    pub fn running(&self) -> Option<u32>
        ensures { result ≡ number_of_first self.now.world.ready }
    {
        match self.state.ready.first() {
            Some(task) => Some(task.number),
            None => None,
        }
    }

    /// The number of the task that is inside the protected object of this number.
    pub fn owner(&self, object: u32) -> Option<u32>
        ensures { result ≡ owner_of object self.now.world.ready }
    {
        owner_of(object, self.state.ready.as_slice())
    }

    /// Why the instruction of the running task raised Program_Error, if it did.
    pub fn cause(&self) -> ErrorCause
        ensures { result ≡ cause_of_first self.now.program self.now.world.ready }
    {
        let Some(task) = self.state.ready.first() else {
            return ErrorCause::Other;
        };
        match self.program.code().at(task.place) {
            Some(step) => cause_of(&step.operation, task, self.program.objects().as_slice()),
            None => ErrorCause::Other,
        }
    }

    /// The source of the code at a place: the number of the unit among the image's objects, and the line in its source.
    pub fn source_of(&self, place: usize) -> (Option<usize>, Option<u32>)
        ensures unit { result.0 ≡ unit_at 0 self.now.program.units place }
        ensures line { result.1 ≡ line_at self.now.program.lines place None }
    {
        (self.program.unit_at(place), self.program.line_at(place))
    }

    /// Goes on with a run that has a tick after every `n` instructions, of which `since` came after the last tick. It carries out instructions on
    /// words of the running task up to the next tick, or else the one event that comes next; at most `most` events.
    ///
    /// # Errors
    ///
    /// `NoMemory` if the allocator refuses memory. The world is then as before.
    pub fn advance(&mut self, n: u64, since: u64, most: u64) -> Result<Advanced, NoMemory>
        requires some { 1 ≤ most }
        requires room { since + most < 2 ^ 64 }
        requires going { status_of self.old.world ≡ Going }
        ensures ok { IfOk result (λ a. (1 ≤ a.done) × (a.done ≤ most) × ((a.since, self.new) ≡ part_of_run a.done n since self.old)) }
        ensures few { IfOk result (λ a. a.since ≤ since + a.done) }
        ensures err { OnErr result (self.new ≡ self.old) }
    {
        self.program.limits();
        let advanced = advance(&self.program, &mut self.state, n, since, most)?;
        Ok(advanced)
    }
}
