// A running program, as its users see it.
ghost use Rattle.std.specs.Prelude.{◌≡◌, ◌+◌, ◌≤◌, ◌∷◌, OnOk, OnErr, IfOk, [], ℕ, ◌<◌, ◌^◌, pos, replicate};
ghost use Rattle.al_tasks.specs.World.{load};
ghost use Rattle.al_tasks.specs.Runs.{status_of};
ghost use Rattle.al_tasks.specs.Partitions.{loaded, stepped, ran_on, part_of_run, forgotten, environment};
ghost use Rattle.al_tasks.specs.Seen.{seen};

use crate::events::step;
use crate::program::Program;
use crate::runs::{run_events, status_of};
use crate::state::State;
use crate::tasks::Task;
use crate::{Event, Status};
use al_base::NoMemory;
use al_link_image::Image;
use std::alloc::Global;
use std::marker::Model;

/// A running program.
pub struct World {
    pub(crate) program: Program,
    pub(crate) state: State,
}

impl Drop for World {
    fn drop(self) {
        let World {
            program: _,
            state: _,
        } = self;
    }
}

impl Model for World {
    ghost use Rattle.al_tasks.specs.Partitions.{Partition};

    ghost Value = { Partition };

    ghost use Rattle.al_tasks.specs.Seen.{seen};
    ghost use Rattle.al_tasks.specs.Fits.{Fits};

    ghost view = { λ w. record { program = w.program; world = seen w.state } };

    ghost invariant = { λ w. Fits w.program (seen w.state) };
}

/// Memory in which all words are 0.
fn empty_memory(alloc: Global, size: usize) -> Result<Vec<i64>, NoMemory>
    ensures { IfOk result (λ memory. memory.items ≡ replicate size (pos 0)) }
{
    let mut memory = Vec::new(alloc);
    memory.resize(size, 0)?;
    Ok(memory)
}

/// The environment task alone, in a list with room for all the others.
fn first_tasks(alloc: Global, first: usize, tasks: usize) -> Result<Vec<Task>, NoMemory>
    requires first { first < 2 ^ 63 }
    requires tasks { tasks < 2 ^ 32 }
    ensures { IfOk result (λ ready. ready.items ≡ environment first ∷ []) }
{
    let mut ready = Vec::with_capacity(alloc, tasks + 1)?;
    ready.push(Task::new(alloc, 0, 15, 0, first))?;
    Ok(ready)
}

/// A program at its start, when only the environment task exists.
fn start(alloc: Global, program: &Program) -> Result<State, NoMemory>
    ensures { IfOk result (λ state. seen state ≡ load program.now) }
{
    let tasks = program.tasks() as usize;
    let memory = empty_memory(alloc, program.size())?;
    let ready = first_tasks(alloc, program.first_word(0), tasks)?;
    let paused = Vec::with_capacity(alloc, tasks + 1)?;
    Ok(State {
        memory,
        ready,
        paused,
        created: 0,
        gone: false,
        activations: 0,
        clock: 0,
        output: Vec::new(alloc),
        ended: None,
        alloc,
    })
}

impl World {
    /// The program of an image at its start: the environment task alone exists, and is ready.
    ///
    /// # Errors
    ///
    /// `NoMemory` if the allocator refuses memory.
    pub fn load(alloc: Global, image: &Image) -> Result<World, NoMemory>
        ensures { IfOk result (λ world. world ≡ loaded image.now) }
    {
        let program = Program::new(alloc, image)?;
        let state = start(alloc, &program)?;
        Ok(World { program, state })
    }

    /// One event.
    ///
    /// # Errors
    ///
    /// `NoMemory` if the allocator refuses memory. The world is then as before.
    pub fn step(&mut self, event: Event) -> Result<(), NoMemory>
        ensures ok { OnOk result (self.new ≡ stepped self.old event) }
        ensures err { OnErr result (self.new ≡ self.old) }
    {
        step(&self.program, &mut self.state, event)
    }

    /// Runs at most `steps` events, until the program ends or is idle. A tick comes after every `n` instructions, and whenever no task is ready. If
    /// the program is still going afterwards, its events are used up.
    ///
    /// # Errors
    ///
    /// `NoMemory` if the allocator refuses memory. The world is then as after the events before the one that needed it.
    pub fn tick_run(&mut self, steps: u64, n: u64) -> Result<(), NoMemory>
        ensures ok { OnOk result (self.new ≡ ran_on steps n self.old) }
        ensures err { OnErr result ((done : ℕ) × (done < steps) × (self.new ≡ ran_on done n self.old)) }
    {
        run_events(&self.program, &mut self.state, steps, n, 0)?;
        Ok(())
    }

    /// A part of a run: at most `steps` events, with a tick after every `n` instructions, of which `since` came after the last tick. Gives how many
    /// came after the last tick at the end of the part. A run in parts, each of which starts with the number that the one before gave, is the same as
    /// the run in one (`parts_are_the_run`).
    ///
    /// # Errors
    ///
    /// `NoMemory` if the allocator refuses memory. The world is then as after the events before the one that needed it.
    pub fn tick_run_on(&mut self, steps: u64, n: u64, since: u64) -> Result<u64, NoMemory>
        requires { since + steps < 2 ^ 64 }
        ensures ok { IfOk result (λ last. (last, self.new) ≡ part_of_run steps n since self.old) }
        ensures few { IfOk result (λ last. since ≤ n → last ≤ n) }
        ensures err { OnErr result ((done : ℕ) × (done < steps) × (self.new ≡ (part_of_run done n since self.old).1)) }
    {
        let last = run_events(&self.program, &mut self.state, steps, n, since)?;
        Ok(last)
    }

    /// The status of the program.
    pub fn status(&self) -> Status
        ensures { result ≡ status_of self.now.world }
    {
        status_of(&self.state)
    }

    /// The output so far, without what `let_go` has forgotten.
    pub fn output(&self) -> &[u8]
        ensures { result.now ≡ self.now.world.output }
    {
        self.state.output.as_slice()
    }

    /// Forgets the output so far. Later output is kept as before.
    pub fn let_go(&mut self)
        ensures { self.new ≡ forgotten self.old }
    {
        self.state.output.clear();
    }
}
