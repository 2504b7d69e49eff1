// Runs: which event comes next, and the status of the program.
ghost use Rattle.std.specs.Prelude.{[], ◌≡◌, ◌<◌, ◌≤◌, ◌+◌, ◌^◌, ℕ, OnOk, OnErr, IfOk};
ghost use Rattle.al_tasks.specs.Exclusion.{IsLaidOut};
ghost use Rattle.al_tasks.specs.Fits.{Fits};
ghost use Rattle.al_tasks.specs.Runs.{status_of, chosen, since_after, ran};
ghost use Rattle.al_tasks.specs.declared.event.Status.TheVariants.{Going};
ghost use Rattle.al_tasks.specs.Bursts.{WorksOn, IsQuiet, went, later, ticks_in, left_in};
ghost use Rattle.al_tasks.specs.Seen.{seen};

use crate::events::{next_clock, step};
use crate::program::Program;
use crate::queues::{earliest, has_delayed};
use crate::state::State;
use crate::{Ending, Event, Status};
use al_base::NoMemory;

/// The status of a running program.
pub(crate) fn status_of(state: &State) -> Status
    ensures { result ≡ status_of (seen state.now) }
{
    match state.ended {
        None => {
            if state.ready.is_empty() && !has_delayed(&state.paused) {
                Status::Idle
            } else {
                Status::Going
            }
        }
        Some(Ending::Finished) => Status::Finished,
        Some(Ending::Raised { kind, unit, line }) => Status::Raised { kind, unit, line },
        Some(Ending::Stuck) => Status::Stuck,
    }
}

/// The next event of a run with a tick after every `n` instructions, of which `since` came after the last tick.
pub(crate) fn chosen(state: &State, n: u64, since: u64) -> Event
    ensures { result ≡ chosen n since (seen state.now) }
{
    if state.ready.is_empty() || n <= since {
        Event::Tick
    } else {
        Event::Instr
    }
}

/// How many instructions came after the last tick, one event later.
pub(crate) fn since_after(since: u64, event: Event) -> u64
    requires { since + 1 < 2 ^ 64 }
    ensures { result ≡ since_after since event }
{
    match event {
        Event::Instr => since + 1,
        Event::Tick => 0,
    }
}

/// Carries out at most `most` instructions on words of the running task. Gives how many were carried out.
#[inline(never)]
pub(crate) fn work_on(program: &Program, state: &mut State, most: u64) -> u64
    requires { Fits program.now (seen state.old) }
    ensures few { result ≤ most }
    ensures works { WorksOn program.now result (seen state.old) (seen state.new) state.old.ready.items }
{
    if state.ready.is_empty() {
        return 0;
    }
    program.limits();
    let bursts = program.bursts();
    let task = &mut state.ready[0];
    task.carry_on(&mut state.memory, bursts, most)
}

/// The clock some ticks later.
fn later(clock: i64, ticks: u64) -> i64
    ensures { result ≡ later ticks clock }
{
    let mut now = clock;
    for tick in 0..ticks {
        let _before = tick;
        now = next_clock(now);
    }
    now
}

/// How many ticks there are among `done` instructions, with a tick after every `n` of them, of which `since` came after the last tick before.
fn ticks_between(n: u64, since: u64, done: u64) -> u64
    requires some { 0 < n }
    requires since { since ≤ n }
    requires done { 0 < done }
    requires fits { since + done < 2 ^ 64 }
    ensures { result ≡ ticks_in n since done }
{
    (since + done - 1) / n
}

/// How many instructions can come before a tick at which a delayed task becomes ready, if `since` of them came after the last tick.
fn most_before_due(state: &State, n: u64, since: u64) -> u64
    requires { since < n }
    ensures { (k : ℕ) → 0 < k → k ≤ result → IsQuiet (ticks_in n since k) state.now.clock state.now.paused.items }
{
    let moment = earliest(&state.paused);
    let Some(ticks) = moment.checked_sub(state.clock) else {
        return 0;
    };
    if ticks <= 0 {
        return 0;
    }
    let rounds = (ticks as u64 - 1).min(1_073_741_824);
    (n - since).min(1_073_741_824) + rounds * n.min(1_073_741_824)
}

/// Carries out instructions on words of the running task, and the ticks among them. As long as no delayed task becomes ready, these move only the
/// clock. There are at most half as many instructions as events are left, since each tick comes after an instruction.
fn turn_through(program: &Program, state: &mut State, n: u64, since: u64, most: u64) -> Turned
    requires fits { Fits program.now (seen state.old) }
    requires laid { IsLaidOut program.now }
    requires since { since < n }
    requires room { since + most < 2 ^ 64 }
    requires going { status_of (seen state.old) ≡ Going }
    ensures done { result.done ≤ most }
    ensures went { 1 ≤ result.done → went program.now n result.done (since, seen state.old) ≡ (result.since, seen state.new) }
    ensures few { 1 ≤ result.done → result.since ≤ since + result.done }
    ensures none { result.done ≡ 0 → seen state.new ≡ seen state.old }
    ensures fits { Fits program.now (seen state.new) }
{
    let before = most_before_due(state, n, since);
    let done = work_on(program, state, (most / 2).min(before));
    if done == 0 {
        return Turned { done: 0, since };
    }
    let ticks = ticks_between(n, since, done);
    state.clock = later(state.clock, ticks);
    Turned {
        done: done + ticks,
        since: since + done - ticks * n,
    }
}

/// What a turn of a run did: how many events there were, and how many instructions came after the last tick.
#[derive(Clone, Copy)]
struct Turned {
    done: u64,
    since: u64,
}

/// Carries out at most `most` events of a run, and at least one.
fn turn(
    program: &Program,
    state: &mut State,
    n: u64,
    since: u64,
    most: u64,
) -> Result<Turned, NoMemory>
    requires fits { Fits program.now (seen state.old) }
    requires laid { IsLaidOut program.now }
    requires some { 1 ≤ most }
    requires since { since + 1 < 2 ^ 64 }
    requires room { since + most < 2 ^ 64 }
    requires going { status_of (seen state.old) ≡ Going }
    ensures ok { IfOk result (λ t. (1 ≤ t.done) × (t.done ≤ most) × (went program.now n t.done (since, seen state.old) ≡ (t.since, seen state.new))) }
    ensures few { IfOk result (λ t. t.since ≤ since + t.done) }
    ensures err { OnErr result (seen state.new ≡ seen state.old) }
    ensures fits { Fits program.now (seen state.new) }
{
    let event = chosen(state, n, since);
    if let Event::Instr = event {
        let turned = turn_through(program, state, n, since, most);
        if turned.done > 0 {
            return Ok(turned);
        }
    }
    step(program, state, event)?;
    Ok(Turned {
        done: 1,
        since: since_after(since, event),
    })
}

/// Runs at most `steps` events, until the program ends or is idle, with a tick after every `n` instructions, of which `since` came after the last
/// tick. Gives how many came after the last tick at the end.
///
/// # Errors
///
/// `NoMemory` if the allocator refuses memory. The program is then as after the events before the one that needed it.
pub(crate) fn run_events(
    program: &Program,
    state: &mut State,
    steps: u64,
    n: u64,
    since: u64,
) -> Result<u64, NoMemory>
    requires fits { Fits program.now (seen state.old) }
    requires room { since + steps < 2 ^ 64 }
    ensures ok { IfOk result (λ last. went program.now n steps (since, seen state.old) ≡ (last, seen state.new)) }
    ensures err { OnErr result ((done : ℕ) × (done < steps) × (seen state.new ≡ ran program.now done n since (seen state.old))) }
    ensures fits { Fits program.now (seen state.new) }
{
    program.limits();
    let mut last = since;
    let mut done = 0u64;
    while done < steps {
        let Status::Going = status_of(state) else {
            return Ok(last);
        };
        let turned = turn(program, state, n, last, steps - done)?;
        last = turned.since;
        done += turned.done;
    }
    Ok(last)
}
