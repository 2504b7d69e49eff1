// The stack of the running task, and the instructions that take words from it and put words on it.
ghost use Rattle.std.specs.Prelude.{◌≡◌, ◌<◌, ◌^◌};
ghost use Rattle.al_machine.specs.Machine.{machine, IsWithin, HasEffect};
ghost use Rattle.al_machine.specs.Stack.{pushed, dropped, compared, checked, binary, unary};

use crate::arithmetic::{bit, changed, operated};
use crate::instruction::{BinaryOperator, Exception, Trap, UnaryOperator};

/// How many words each stack has.
pub const STACK: usize = 16_384;

/// The registers of a task: the first of its own stack words, the first word of its frame, and the place after the last word on its
/// stack.
#[derive(Clone, Copy)]
pub struct Registers {
    /// The first of the task's own stack words.
    pub first: usize,
    /// The first word of its frame.
    pub frame: usize,
    /// The place after the last word on its stack.
    pub top: usize,
}

/// Puts a word on the stack.
///
/// # Errors
///
/// `Raised` with Storage_Error if the stack is full. Memory and registers stay as they were.
#[tactic(auto, unfolding(crate::specs::Stack::pushed))]
pub fn push(memory: &mut [i64], registers: &mut Registers, word: i64) -> Result<(), Trap>
    requires { IsWithin (machine memory.old registers.old) }
    ensures { HasEffect result (machine memory.old registers.old) (machine memory.new registers.new) (pushed word (machine memory.old registers.old)) }
{
    if registers.top == registers.first + STACK {
        return Err(Trap::Raised(Exception::Storage));
    }
    memory[registers.top] = word;
    registers.top += 1;
    Ok(())
}

/// Takes so many words from the stack.
///
/// # Errors
///
/// `Stuck` if the frame has fewer words. Memory and registers stay as they were.
#[tactic(auto, unfolding(crate::specs::Stack::dropped))]
pub fn drop_words(memory: &mut [i64], registers: &mut Registers, words: usize) -> Result<(), Trap>
    requires { IsWithin (machine memory.old registers.old) }
    ensures { HasEffect result (machine memory.old registers.old) (machine memory.new registers.new) (dropped words (machine memory.old registers.old)) }
{
    if registers.top - registers.frame < words {
        return Err(Trap::Stuck);
    }
    registers.top -= words;
    Ok(())
}

/// Takes twice so many words from the stack, and puts 1 on it if both halves are equal, else 0.
///
/// # Errors
///
/// `Stuck` if the frame has fewer words; `Raised` with Storage_Error if there are none to take and the stack is full. Memory and
/// registers stay as they were.
#[tactic(auto, unfolding(crate::specs::Stack::compared))]
pub fn same(memory: &mut [i64], registers: &mut Registers, words: usize) -> Result<(), Trap>
    requires within { IsWithin (machine memory.old registers.old) }
    requires words { words < 2 ^ 32 }
    ensures { HasEffect result (machine memory.old registers.old) (machine memory.new registers.new) (compared words (machine memory.old registers.old)) }
{
    let top = registers.top;
    if top - registers.frame < words + words {
        return Err(Trap::Stuck);
    }
    let middle = top - words;
    let place = middle - words;
    if place == registers.first + STACK {
        return Err(Trap::Raised(Exception::Storage));
    }
    let are_same = &memory[place..middle] == &memory[middle..top];
    memory[place] = bit(are_same);
    registers.top = place + 1;
    Ok(())
}

/// Checks that the word on top of the stack lies between two bounds.
///
/// # Errors
///
/// `Stuck` if the frame has no word; `Raised` with Constraint_Error if the word is outside of the bounds. Memory and registers stay
/// as they were.
#[tactic(auto, unfolding(crate::specs::Stack::checked))]
pub fn check(memory: &mut [i64], registers: &mut Registers, low: i64, high: i64) -> Result<(), Trap>
    requires { IsWithin (machine memory.old registers.old) }
    ensures { HasEffect result (machine memory.old registers.old) (machine memory.new registers.new) (checked low high (machine memory.old registers.old)) }
{
    if registers.top - registers.frame < 1 {
        return Err(Trap::Stuck);
    }
    let word = memory[registers.top - 1];
    if low <= word && word <= high {
        Ok(())
    } else {
        Err(Trap::Raised(Exception::Constraint))
    }
}

/// Takes two words from the stack and puts the result of an operator on it.
///
/// # Errors
///
/// `Stuck` if the frame has fewer words; else the error of `operated`. Memory and registers stay as they were.
#[tactic(auto, unfolding(crate::specs::Stack::binary))]
#[inline(always)]
pub fn binary(
    memory: &mut [i64],
    registers: &mut Registers,
    operator: BinaryOperator,
) -> Result<(), Trap>
    requires { IsWithin (machine memory.old registers.old) }
    ensures { HasEffect result (machine memory.old registers.old) (machine memory.new registers.new) (binary operator (machine memory.old registers.old)) }
{
    if registers.top - registers.frame < 2 {
        return Err(Trap::Stuck);
    }
    let place = registers.top - 2;
    let word = operated(operator, memory[place], memory[place + 1])?;
    memory[place] = word;
    registers.top = place + 1;
    Ok(())
}

/// Puts the result of an operator in the place of the word on top of the stack.
///
/// # Errors
///
/// `Stuck` if the frame has no word; else the error of `changed`. Memory and registers stay as they were.
#[tactic(auto, unfolding(crate::specs::Stack::unary))]
pub fn unary(
    memory: &mut [i64],
    registers: &mut Registers,
    operator: UnaryOperator,
) -> Result<(), Trap>
    requires { IsWithin (machine memory.old registers.old) }
    ensures { HasEffect result (machine memory.old registers.old) (machine memory.new registers.new) (unary operator (machine memory.old registers.old)) }
{
    if registers.top - registers.frame < 1 {
        return Err(Trap::Stuck);
    }
    let place = registers.top - 1;
    let word = changed(operator, memory[place])?;
    memory[place] = word;
    Ok(())
}
