// The instructions that put out text.
ghost use Rattle.std.specs.Prelude.{◌≡◌, ◌+◌, ◌-◌, ◌++◌, OnOk, OnErr, if◌then◌else◌};
ghost use Rattle.al_machine.specs.Machine.{machine, IsWithin};
ghost use Rattle.al_machine.specs.Stack.{holds, word_at};
ghost use Rattle.al_machine.specs.Output.{image_of, appended, text_of, HasOutput};

use crate::instruction::Trap;
use crate::operation::OutputInstruction;
use crate::stack::Registers;
use al_base::NoMemory;
use itoa::Buffer;

/// Appends bytes, or changes nothing.
fn append(output: &mut Vec<u8>, bytes: &[u8]) -> Result<(), NoMemory>
    ensures ok { OnOk result (output.new.items ≡ output.old.items ++ bytes.now) }
    ensures err { OnErr result (output.new.items ≡ output.old.items) }
{
    output.extend_from_slice(bytes)?;
    Ok(())
}

/// Appends the image of a word, or changes nothing.
fn append_image(output: &mut Vec<u8>, word: i64) -> Result<(), NoMemory>
    ensures ok { OnOk result (output.new.items ≡ output.old.items ++ image_of word) }
    ensures err { OnErr result (output.new.items ≡ output.old.items) }
{
    let mut buffer = Buffer::new();
    let digits = buffer.format(word).as_bytes();
    if word < 0 {
        return append(output, digits);
    }
    let before = output.len();
    append(output, b" ")?;
    if append(output, digits).is_err() {
        output.truncate(before);
        return Err(NoMemory);
    }
    Ok(())
}

/// The word so far below the top of the stack, if it lies in the frame.
fn word_below(memory: &[i64], registers: &Registers, below: u32) -> Option<i64>
    requires { IsWithin (machine memory.now registers.now) }
    ensures { result ≡ (let m = machine memory.now registers.now in if holds (below + 1) m then Some (word_at m (m.top - 1 - below)) else None) }
{
    let below = below as usize;
    if registers.top - registers.frame < below + 1 {
        return None;
    }
    Some(memory[registers.top - 1 - below])
}

/// Appends what an instruction puts out.
///
/// # Errors
///
/// `NoMemory` if the allocator refuses memory. The inner error is `Stuck` if the frame has no such word or the word is the position
/// of no name. The output stays as it was.
#[tactic(auto, unfolding(crate::specs::Output::text_of))]
pub fn put_out(
    output: &mut Vec<u8>,
    instruction: &OutputInstruction,
    memory: &[i64],
    registers: &Registers,
) -> Result<Result<(), Trap>, NoMemory>
    requires { IsWithin (machine memory.now registers.now) }
    ensures { HasOutput result output.old.items output.new.items (appended output.old.items (text_of instruction.now (machine memory.now registers.now))) }
{
    match instruction {
        OutputInstruction::PutText(text) => append(output, text.as_slice())?,
        OutputInstruction::PutInteger(below) => {
            let Some(word) = word_below(memory, registers, *below) else {
                return Ok(Err(Trap::Stuck));
            };
            append_image(output, word)?;
        }
        OutputInstruction::PutName { below, names } => {
            let Some(word) = word_below(memory, registers, *below) else {
                return Ok(Err(Trap::Stuck));
            };
            if word < 0 {
                return Ok(Err(Trap::Stuck));
            }
            let Some(name) = names.get(word as usize) else {
                return Ok(Err(Trap::Stuck));
            };
            append(output, name)?;
        }
        OutputInstruction::NewLine => append(output, b"\n")?,
    }
    Ok(Ok(()))
}
