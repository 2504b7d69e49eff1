// The table of instructions that work on words alone.
ghost use Rattle.std.specs.Prelude.{◌≡◌, ◌^◌, ◌<◌};
ghost use Rattle.al_machine.specs.Machine.{machine, IsWithin, HasFlow};
ghost use Rattle.al_machine.specs.Table.{exec, trap_of};

use crate::frames::{access, call, enter, frame, jump, jump_if_zero, leave, mark, root};
use crate::instruction::{Exception, Flow, Instruction, Trap};
use crate::memory::{field, index, load, store, zero};
use crate::regions::{Entered, Regions};
use crate::stack::{Registers, binary, check, drop_words, push, same, unary};

/// What the exception of a code makes of the step; a code of none has no effect.
fn trap_of(code: u32) -> Trap
    ensures { result ≡ trap_of code }
{
    match code {
        1 => Trap::Raised(Exception::Constraint),
        2 => Trap::Raised(Exception::Program),
        3 => Trap::Raised(Exception::Storage),
        _ => Trap::Stuck,
    }
}

/// Carries out an instruction for a task inside those objects; `next` is the place after the instruction.
///
/// # Errors
///
/// `Stuck` if the instruction has no effect in this state; `Raised` with the exception that it raises. Memory and registers stay as
/// they were.
#[inline(always)]
pub fn exec(
    memory: &mut [i64],
    registers: &mut Registers,
    objects: &Regions,
    inside: &[Entered],
    instruction: &Instruction,
    next: usize,
) -> Result<Flow, Trap>
    requires within { IsWithin (machine memory.old registers.old) }
    requires next { next < 2 ^ 32 }
    ensures effect { HasFlow result (machine memory.old registers.old) (machine memory.new registers.new) (exec objects.now inside.now next instruction.now (machine memory.old registers.old)) }
    ensures keeps { IsWithin (machine memory.new registers.new) }
{
    carry_out(memory, registers, objects, inside, instruction, next)
}

#[tactic(auto, unfolding(crate::specs::Table::exec))]
#[inline(always)]
fn carry_out(
    memory: &mut [i64],
    registers: &mut Registers,
    objects: &Regions,
    inside: &[Entered],
    instruction: &Instruction,
    next: usize,
) -> Result<Flow, Trap>
    requires within { IsWithin (machine memory.old registers.old) }
    requires next { next < 2 ^ 32 }
    ensures { HasFlow result (machine memory.old registers.old) (machine memory.new registers.new) (exec objects.now inside.now next instruction.now (machine memory.old registers.old)) }
{
    let effect = match instruction {
        Instruction::Const(word) => push(memory, registers, *word),
        Instruction::Frame { links, offset } => frame(memory, registers, *links, *offset),
        Instruction::Global(address) => push(memory, registers, *address as i64),
        Instruction::Load(words) => load(memory, registers, objects, inside, *words as usize),
        Instruction::Store(words) => store(memory, registers, objects, inside, *words as usize),
        Instruction::Zero(words) => zero(memory, registers, objects, inside, *words as usize),
        Instruction::Same(words) => same(memory, registers, *words as usize),
        Instruction::Drop(words) => drop_words(memory, registers, *words as usize),
        Instruction::Check { low, high } => check(memory, registers, *low, *high),
        Instruction::Index { low, high, words } => index(memory, registers, *low, *high, *words),
        Instruction::Field(words) => field(memory, registers, *words),
        Instruction::Jump(distance) => return jump(memory, registers, next, *distance),
        Instruction::JumpIfZero(distance) => return jump_if_zero(
            memory, registers, next, *distance,
        ),
        Instruction::Binary(operator) => binary(memory, registers, *operator),
        Instruction::Unary(operator) => unary(memory, registers, *operator),
        Instruction::Mark(links) => mark(memory, registers, *links),
        Instruction::Root => root(memory, registers),
        Instruction::Call { place, words } => return call(
            memory,
            registers,
            *place as usize,
            *words as usize,
            next,
        ),
        Instruction::Enter(words) => enter(memory, registers, *words as usize),
        Instruction::Return(words) => return leave(memory, registers, *words as usize),
        Instruction::Access => access(memory, registers),
        Instruction::Raise(code) => Err(trap_of(*code)),
    };
    match effect {
        Ok(()) => Ok(Flow::On),
        Err(trap) => Err(trap),
    }
}
