// A task.
ghost use Rattle.std.specs.Prelude.{◌≡◌, ◌<◌, ◌≤◌, ◌^◌, length, OnOk, OnErr, IsTrue, ◌↔◌};
ghost use Rattle.al_machine.specs.Machine.{machine, IsWithin};
ghost use Rattle.al_machine.specs.Table.{exec as executed};
ghost use Rattle.al_tasks.specs.World.{inside, is_inside_nothing};
ghost use Rattle.al_tasks.specs.Queues.{left_by, sole_of};
ghost use Rattle.al_tasks.specs.Partitions.{new_task};
ghost use Rattle.al_machine.specs.Bursts.{IsFree};
ghost use Rattle.al_tasks.specs.Bursts.{CarriesOn};
ghost use Rattle.al_tasks.specs.Turns.{turn_of};

use crate::Pause;
use al_base::NoMemory;
use al_machine::{
    Bursts, Code, Entered, Flow, Instruction, Regions, Registers, Trap, carry_on, exec,
};
use std::alloc::Global;
use std::marker::Model;

/// A task: its number; its base and its active priority; the objects that it is inside, the last one entered first; its place in the code and its
/// words in memory; whether its activation has ended; and why it is paused, if it is.
#[derive(Drop)]
pub(crate) struct Task {
    pub(crate) number: u32,
    pub(crate) base: u32,
    pub(crate) active: u32,
    pub(crate) held: Vec<Entered>,
    pub(crate) place: usize,
    pub(crate) registers: Registers,
    pub(crate) begun: bool,
    pub(crate) pause: Pause,
}

impl Model for Task {
    ghost use Rattle.al_tasks.specs.Task.{Task as Seen};

    ghost Value = { Seen };

    ghost view = { λ t. record { number = t.number; base = t.base; active = t.active; held = t.held.items; place = t.place; registers = t.registers; begun = t.begun; pause = t.pause } };
}

impl Task {
    /// A new task, whose frame of three words is at the beginning of its stack words.
    pub(crate) fn new(alloc: Global, number: u32, priority: u32, place: usize, first: usize) -> Task
        requires { first < 2 ^ 63 }
        ensures { result ≡ new_task number priority place first }
    {
        Task {
            number,
            base: priority,
            active: priority,
            held: Vec::new(alloc),
            place,
            registers: Registers {
                first,
                frame: first,
                top: first + 3,
            },
            begun: false,
            pause: Pause::Created,
        }
    }

    /// The task's number.
    pub(crate) fn number(&self) -> u32
        ensures { result ≡ self.now.number }
    {
        self.number
    }

    /// The task's active priority.
    pub(crate) fn level(&self) -> u32
        ensures { result ≡ self.now.active }
    {
        self.active
    }

    /// The place of the task's next instruction.
    pub(crate) fn place(&self) -> usize
        ensures { result ≡ self.now.place }
    {
        self.place
    }

    /// The number of the object that the task is inside, if it is inside exactly one.
    pub(crate) fn sole(&self) -> Option<u32>
        ensures { result ≡ sole_of self.now.held }
    {
        if self.held.len() == 1 {
            Some(self.held[0].object)
        } else {
            None
        }
    }

    /// Whether the task is inside no object.
    pub(crate) fn is_inside_nothing(&self) -> bool
        ensures { result ≡ is_inside_nothing self.now.held }
    {
        self.held.is_empty()
    }

    /// Enters one more object, whose ceiling becomes the active priority.
    ///
    /// # Errors
    ///
    /// `NoMemory` if the allocator refuses memory. The task is then as before.
    pub(crate) fn enter(&mut self, object: u32, ceiling: u32) -> Result<(), NoMemory>
        ensures ok { OnOk result (self.new ≡ inside self.old object ceiling) }
        ensures err { OnErr result (self.new ≡ self.old) }
    {
        let entered = Entered {
            object,
            before: self.active,
        };
        self.held.insert(0, entered)?;
        self.active = ceiling;
        Ok(())
    }

    /// Leaves the object that the task entered last, if it is inside one.
    pub(crate) fn leave(&mut self)
        ensures { self.new ≡ left_by self.old self.old.held }
    {
        if self.held.is_empty() {
            return;
        }
        let entered = self.held.remove(0);
        self.active = entered.before;
    }

    /// Carries out an instruction on words. Gives what stops the run, if anything does.
    #[inline(always)]
    pub(crate) fn run(
        &mut self,
        memory: &mut [i64],
        code: &Code,
        objects: &Regions,
        instruction: &Instruction,
        next: usize,
    ) -> Option<Trap>
        requires within { IsWithin (machine memory.old self.old.registers) }
        requires next { next < 2 ^ 32 }
        ensures { record { task = self.new; memory = memory.new; trap = result } ≡ turn_of code.now next self.old memory.old (executed objects.now self.old.held next instruction.now (machine memory.old self.old.registers)) }
    {
        match exec(
            memory,
            &mut self.registers,
            objects,
            &self.held,
            instruction,
            next,
        ) {
            Ok(Flow::On) => {
                self.place = next;
                None
            }
            Ok(Flow::To(place)) => {
                self.place = place;
                if code.at(place).is_none() {
                    return Some(Trap::Stuck);
                }
                None
            }
            Err(trap) => Some(trap),
        }
    }
    /// Carries out at most `most` instructions on words, as long as the next one is on words and nothing stops the run. Gives how many were carried
    /// out.
    #[inline(always)]
    pub(crate) fn carry_on(&mut self, memory: &mut [i64], bursts: &Bursts, most: u64) -> u64
        requires within { IsWithin (machine memory.old self.old.registers) }
        requires free { IsFree bursts.now.objects self.old.held (machine memory.old self.old.registers) }
        ensures few { result ≤ most }
        ensures carried { CarriesOn bursts.now.objects bursts.now.code result self.old memory.old self.new memory.new }
    {
        let carried = carry_on(
            memory,
            &mut self.registers,
            bursts,
            &self.held,
            self.place,
            most,
        );
        self.place = carried.place;
        carried.done
    }
}
