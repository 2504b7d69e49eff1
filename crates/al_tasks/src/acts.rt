// The effects of the instructions on tasks. Each function receives the running task, which was taken out of the ready ones, and puts it back into a
// list.
ghost use Rattle.std.specs.Prelude.{◌≡◌, ◌+◌, ◌<◌, ◌≤◌, ◌^◌, length, vec_len, vec_capacity, slice_get};
ghost use Rattle.al_machine.specs.Machine.{IsWithin, machine};
ghost use Rattle.al_machine.specs.Stack.{pushed};
ghost use Rattle.al_machine.specs.declared.operation.TaskInstruction.TheVariants as kind;
ghost use Rattle.al_tasks.specs.Exclusion.{size};
ghost use Rattle.al_tasks.specs.World as world;
ghost use Rattle.al_tasks.specs.Seen.{seen, running, HasRoom, HasPlaces, Becomes};
ghost use Rattle.al_tasks.specs.Acts.{at_place, acted, turned};

use crate::program::Program;
use crate::queues::{
    Wanted, has_caller, have_ended, put, put_at_head, put_at_tail, put_by_number, release,
};
use crate::state::State;
use crate::tasks::Task;
use crate::{Ending, Pause};
use al_base::NoMemory;
use al_machine::{Exception, Trap, clear, copy, is_entered, push};

/// The task goes on as the running one.
pub(crate) fn go_on(state: &mut State, task: Task)
    requires { HasRoom state.old }
    ensures world { seen state.new ≡ running task state.old }
    ensures places { HasPlaces state.new }
{
    put(&mut state.ready, 0, task);
}

/// The program is damaged.
pub(crate) fn stick(state: &mut State, task: Task)
    requires { HasRoom state.old }
    ensures { seen state.new ≡ world.stuck (running task state.old) }
{
    go_on(state, task);
    state.ended = Some(Ending::Stuck);
}

/// An exception is raised at the task's place.
pub(crate) fn raise(program: &Program, state: &mut State, task: Task, exception: Exception)
    requires { HasRoom state.old }
    ensures { seen state.new ≡ world.raises program.now exception task (running task state.old) }
{
    let ending = program.raised_at(exception, task.place);
    go_on(state, task);
    state.ended = Some(ending);
}

/// The task pauses.
fn pause(state: &mut State, mut task: Task, why: Pause)
    requires { HasRoom state.old }
    ensures value { seen state.new ≡ world.pauses task why state.old.ready.items (running task state.old) }
    ensures room { vec_len state.new.ready + vec_len state.new.paused ≤ vec_capacity state.new.ready }
{
    task.pause = why;
    put_by_number(&mut state.paused, task);
}

/// Creates a task that begins at a place.
#[tactic(auto, unfolding(crate::specs::World::handled))]
pub(crate) fn create(
    program: &Program,
    state: &mut State,
    mut task: Task,
    place: u32,
    priority: u32,
    next: usize,
)
    requires room { HasRoom state.old }
    requires size { length state.old.memory.items ≡ size program.now }
    ensures { seen state.new ≡ acted program.now (kind.Task place priority) next task state.old }
{
    if state.gone || program.tasks() <= state.created || priority > 30 {
        return stick(state, task);
    }
    let number = state.created + 1;
    let first = program.first_word(number);
    clear(&mut state.memory, first, 3);
    task.place = next;
    let created = Task::new(state.alloc, number, priority, place as usize, first);
    go_on(state, task);
    put_by_number(&mut state.paused, created);
    state.created = number;
}

/// The created tasks become ready, and the environment task waits for their activations.
#[tactic(auto, unfolding(crate::specs::World::handled))]
pub(crate) fn go(program: &Program, state: &mut State, mut task: Task, next: usize)
    requires { HasRoom state.old }
    ensures { seen state.new ≡ acted program.now kind.Go next task state.old }
{
    if state.gone || !task.is_inside_nothing() {
        return stick(state, task);
    }
    task.place = next;
    state.gone = true;
    if state.created == 0 {
        return go_on(state, task);
    }
    state.activations = state.created;
    pause(state, task, Pause::Activating);
    release(&mut state.ready, &mut state.paused, Wanted::Created);
}

/// The task's activation ends. If it was the last one, the environment task becomes ready.
#[tactic(auto, unfolding(crate::specs::World::handled))]
pub(crate) fn begin(program: &Program, state: &mut State, mut task: Task, next: usize)
    requires { HasRoom state.old }
    ensures { seen state.new ≡ acted program.now kind.Begun next task state.old }
{
    if !task.is_inside_nothing() || task.number == 0 || task.begun {
        return stick(state, task);
    }
    task.place = next;
    task.begun = true;
    go_on(state, task);
    let last = state.activations == 1;
    state.activations = state.activations.saturating_sub(1);
    if last {
        release(&mut state.ready, &mut state.paused, Wanted::Activating);
    }
}

/// The task ends. If all tasks have ended, so has the program.
#[tactic(auto, unfolding(crate::specs::World::handled))]
pub(crate) fn finish(program: &Program, state: &mut State, mut task: Task, next: usize)
    requires { HasRoom state.old }
    ensures { seen state.new ≡ acted program.now kind.Done next task state.old }
{
    if !task.is_inside_nothing() {
        return stick(state, task);
    }
    task.place = next;
    pause(state, task, Pause::Ended);
    if state.ready.is_empty() && have_ended(&state.paused) {
        state.ended = Some(Ending::Finished);
    }
}

/// Pushes a word.
pub(crate) fn push_word(
    program: &Program,
    state: &mut State,
    mut task: Task,
    word: i64,
    next: usize,
)
    requires room { HasRoom state.old }
    requires within { IsWithin (machine state.old.memory.items task.registers) }
    ensures { seen state.new ≡ turned program.now next task state.old (pushed word (machine state.old.memory.items task.registers)) }
{
    match push(&mut state.memory, &mut task.registers, word) {
        Ok(()) => {
            task.place = next;
            go_on(state, task);
        }
        Err(Trap::Stuck) => stick(state, task),
        Err(Trap::Raised(exception)) => raise(program, state, task, exception),
    }
}

/// Pushes the clock.
#[tactic(auto, unfolding(crate::specs::World::handled))]
pub(crate) fn push_clock(program: &Program, state: &mut State, task: Task, next: usize)
    requires room { HasRoom state.old }
    requires within { IsWithin (machine state.old.memory.items task.registers) }
    ensures { seen state.new ≡ acted program.now kind.Now next task state.old }
{
    let clock = state.clock;
    push_word(program, state, task, clock, next);
}

/// Delays the task until the moment on top of its stack. If that isn't later than now, the task goes to the tail of its level.
#[tactic(auto, unfolding(crate::specs::World::handled))]
pub(crate) fn sleep(program: &Program, state: &mut State, mut task: Task, next: usize)
    requires room { HasRoom state.old }
    requires within { IsWithin (machine state.old.memory.items task.registers) }
    ensures { seen state.new ≡ acted program.now kind.Sleep next task state.old }
{
    let may_sleep = task.is_inside_nothing();
    if !may_sleep {
        return raise(program, state, task, Exception::Program);
    }
    let top = task.registers.top;
    if top - task.registers.frame < 1 {
        return stick(state, task);
    }
    let moment = state.memory[top - 1];
    task.registers.top = top - 1;
    task.place = next;
    if moment <= state.clock {
        put_at_tail(&mut state.ready, task);
    } else {
        pause(state, task, Pause::Delayed(moment));
    }
}

/// Enters a protected object.
///
/// # Errors
///
/// `NoMemory` if the allocator refuses memory. The program is then as before.
pub(crate) fn enter(
    program: &Program,
    state: &mut State,
    mut task: Task,
    object: u32,
    next: usize,
) -> Result<(), NoMemory>
    requires { HasRoom state.old }
    ensures { Becomes result (running task state.old) (seen state.new) (world.enters program.now object (slice_get program.now.objects object) task (at_place task next) state.old.ready.items (running task state.old)) }
{
    let Some(region) = program.object(object) else {
        stick(state, task);
        return Ok(());
    };
    let ceiling = region.ceiling;
    if task.active > ceiling || is_entered(&task.held, object as usize) {
        raise(program, state, task, Exception::Program);
        return Ok(());
    }
    if task.enter(object, ceiling).is_err() {
        go_on(state, task);
        return Err(NoMemory);
    }
    task.place = next;
    put_at_head(&mut state.ready, task);
    Ok(())
}

/// Enters a protected object to call its entry.
///
/// # Errors
///
/// `NoMemory` if the allocator refuses memory. The program is then as before.
#[tactic(auto, unfolding(crate::specs::World::handled))]
pub(crate) fn enter_entry(
    program: &Program,
    state: &mut State,
    task: Task,
    object: u32,
    next: usize,
) -> Result<(), NoMemory>
    requires { HasRoom state.old }
    ensures { Becomes result (running task state.old) (seen state.new) (acted program.now (kind.EnterEntry object) next task state.old) }
{
    if program.object(object).is_none() {
        stick(state, task);
        return Ok(());
    }
    if !task.is_inside_nothing() {
        raise(program, state, task, Exception::Program);
        return Ok(());
    }
    enter(program, state, task, object, next)
}

/// Leaves the object that was entered last.
#[tactic(auto, unfolding(crate::specs::World::handled))]
pub(crate) fn leave(program: &Program, state: &mut State, mut task: Task, next: usize)
    requires { HasRoom state.old }
    ensures { seen state.new ≡ acted program.now kind.Leave next task state.old }
{
    if task.is_inside_nothing() {
        return stick(state, task);
    }
    task.leave();
    task.place = next;
    put_at_head(&mut state.ready, task);
}

/// Pushes whether a caller waits at the entry of an object.
#[tactic(auto, unfolding(crate::specs::World::handled))]
pub(crate) fn push_waiting(
    program: &Program,
    state: &mut State,
    task: Task,
    object: u32,
    next: usize,
)
    requires room { HasRoom state.old }
    requires within { IsWithin (machine state.old.memory.items task.registers) }
    ensures { seen state.new ≡ acted program.now (kind.Waiting object) next task state.old }
{
    if program.object(object).is_none() {
        return stick(state, task);
    }
    let waits = has_caller(&state.paused, object);
    push_word(program, state, task, if waits { 1 } else { 0 }, next);
}

/// Makes the waiting caller of an object's entry ready.
#[tactic(auto, unfolding(crate::specs::World::handled))]
pub(crate) fn wake(program: &Program, state: &mut State, mut task: Task, object: u32, next: usize)
    requires { HasRoom state.old }
    ensures { seen state.new ≡ acted program.now (kind.Wake object) next task state.old }
{
    if program.object(object).is_none() {
        return stick(state, task);
    }
    if !has_caller(&state.paused, object) {
        return stick(state, task);
    }
    task.place = next;
    go_on(state, task);
    release(&mut state.ready, &mut state.paused, Wanted::Waiting(object));
}

/// Leaves the object, which must be the only one that the task is inside, and waits at its entry.
#[tactic(auto, using(crate::proofs::ActLemmas::blocks_none, crate::proofs::ActLemmas::blocks_other, crate::proofs::ActLemmas::blocks_called, crate::proofs::ActLemmas::blocks_waits, crate::proofs::ActLemmas::left_at), unfolding(crate::specs::World::handled))]
pub(crate) fn block(program: &Program, state: &mut State, mut task: Task, object: u32, next: usize)
    requires { HasRoom state.old }
    ensures { seen state.new ≡ acted program.now (kind.Block object) next task state.old }
{
    let Some(sole) = task.sole() else {
        return stick(state, task);
    };
    if sole != object {
        return stick(state, task);
    }
    if has_caller(&state.paused, object) {
        return raise(program, state, task, Exception::Program);
    }
    task.leave();
    task.place = next;
    pause(state, task, Pause::Waiting(object));
}

/// Gives the words of a protected object their first values.
#[tactic(auto, unfolding(crate::specs::World::handled))]
pub(crate) fn seed(
    program: &Program,
    state: &mut State,
    mut task: Task,
    address: u32,
    words: u32,
    next: usize,
)
    requires room { HasRoom state.old }
    requires within { IsWithin (machine state.old.memory.items task.registers) }
    ensures { seen state.new ≡ acted program.now (kind.Seed address words) next task state.old }
{
    if state.gone || !task.is_inside_nothing() {
        return stick(state, task);
    }
    let top = task.registers.top;
    let to = address as usize;
    let words = words as usize;
    if top - task.registers.frame < words || to + words > state.memory.len() {
        return stick(state, task);
    }
    copy(&mut state.memory, top - words, words, to);
    task.registers.top = top - words;
    task.place = next;
    go_on(state, task);
}
