// The instructions of the machine, and their bytes.
ghost use Rattle.std.specs.Prelude.{◌≡◌, [], ◌∷◌, ◌++◌, OnOk};
ghost use Rattle.std.specs.List.{flat_map};
ghost use Rattle.al_instr.specs.Codes.{word_bytes, jump_bytes, long_bytes, name_bytes, encoded};

use crate::numbers::{Plain, Protected, Sized};
use crate::text::{Text, Word, Words};
use al_base::NoMemory;

/// An instruction of compiled code.
#[derive(Drop)]
pub enum Instr {
    /// An instruction without operands.
    Plain(Plain),
    /// An instruction with a number of words, an offset or a code.
    Sized(Sized, u32),
    /// What is done to the protected object of this number.
    Protected(Protected, u32),
    /// Pushes a word.
    Const(i64),
    /// Pushes the address of a word of the frame so many static links out.
    Frame { depth: u32, word: u32 },
    /// Pushes the address of a data word.
    Global(u32),
    /// Checks that the word on top lies within the bounds.
    Check { low: i64, high: i64 },
    /// Replaces an address and an index by the address of a component.
    Index { low: i64, high: i64, words: u32 },
    /// Goes on so many bytes after the end of the instruction.
    Jump(i32),
    /// Goes on so many bytes after the end of the instruction, if the popped word is 0.
    JumpZero(i32),
    /// Calls the routine at a place, with so many words of parameters.
    Call { place: u32, words: u32 },
    /// Puts out the bytes.
    PutText(Text),
    /// Puts out the name whose number is the word so far below the top.
    PutName { below: u32, names: Words },
    /// Creates a task.
    Task { place: u32, priority: u32 },
    /// Gives words of a protected object their first values.
    Seed { place: u32, words: u32 },
}

impl Instr {
    /// Appends the bytes of the instruction.
    ///
    /// # Errors
    ///
    /// `NoMemory` if the allocator refuses memory. What `out` then has isn't specified.
    #[tactic(auto, unfolding(crate::specs::Codes::encoded))]
    pub fn encode(&self, out: &mut Vec<u8>) -> Result<(), NoMemory>
        ensures { OnOk result (out.new.items ≡ out.old.items ++ encoded self.now) }
    {
        match self {
            Instr::Plain(plain) => push_byte(out, plain.number()),
            Instr::Sized(sized, number) => push_one(out, sized.number(), *number),
            Instr::Protected(action, object) => push_one(out, action.number(), *object),
            Instr::Const(word) => {
                push_byte(out, 0x00)?;
                push_long(out, *word)
            }
            Instr::Frame { depth, word } => push_two(out, 0x01, *depth, *word),
            Instr::Global(place) => push_one(out, 0x02, *place),
            Instr::Check { low, high } => {
                push_byte(out, 0x08)?;
                push_long(out, *low)?;
                push_long(out, *high)
            }
            Instr::Index { low, high, words } => {
                push_byte(out, 0x09)?;
                push_long(out, *low)?;
                push_long(out, *high)?;
                push_word(out, *words)
            }
            Instr::Jump(distance) => {
                push_byte(out, 0x0b)?;
                push_jump(out, *distance)
            }
            Instr::JumpZero(distance) => {
                push_byte(out, 0x0c)?;
                push_jump(out, *distance)
            }
            Instr::Call { place, words } => push_two(out, 0x32, *place, *words),
            Instr::PutText(text) => {
                push_one(out, 0x40, text.as_slice().len() as u32)?;
                push_bytes(out, text.as_slice())
            }
            Instr::PutName { below, names } => {
                push_one(out, 0x42, *below)?;
                push_word(out, names.len() as u32)?;
                push_names(out, names.as_slice())
            }
            Instr::Task { place, priority } => push_two(out, 0x50, *place, *priority),
            Instr::Seed { place, words } => push_two(out, 0x5c, *place, *words),
        }
    }
}

/// Appends names, each after the number of its bytes.
fn push_names(out: &mut Vec<u8>, names: &[Word]) -> Result<(), NoMemory>
    ensures { OnOk result (out.new.items ≡ out.old.items ++ flat_map name_bytes names.now) }
{
    for name in names {
        push_byte(out, name.as_slice().len() as u8)?;
        push_bytes(out, name.as_slice())?;
    }
    Ok(())
}

/// Appends a byte.
fn push_byte(out: &mut Vec<u8>, byte: u8) -> Result<(), NoMemory>
    ensures { OnOk result (out.new.items ≡ out.old.items ++ byte ∷ []) }
{
    out.push(byte)?;
    Ok(())
}

/// Appends the bytes.
fn push_bytes(out: &mut Vec<u8>, bytes: &[u8]) -> Result<(), NoMemory>
    ensures { OnOk result (out.new.items ≡ out.old.items ++ bytes.now) }
{
    out.extend_from_slice(bytes)?;
    Ok(())
}

/// Appends a number in four bytes, the highest first.
#[tactic(auto, unfolding(crate::specs::Codes::word_bytes))]
fn push_word(out: &mut Vec<u8>, number: u32) -> Result<(), NoMemory>
    ensures { OnOk result (out.new.items ≡ out.old.items ++ word_bytes number) }
{
    push_bytes(out, &number.to_be_bytes())
}

/// Appends a distance in four bytes.
#[tactic(auto, unfolding(crate::specs::Codes::jump_bytes))]
fn push_jump(out: &mut Vec<u8>, distance: i32) -> Result<(), NoMemory>
    ensures { OnOk result (out.new.items ≡ out.old.items ++ jump_bytes distance) }
{
    push_bytes(out, &distance.to_be_bytes())
}

/// Appends a word of the machine in eight bytes.
#[tactic(auto, unfolding(crate::specs::Codes::long_bytes))]
fn push_long(out: &mut Vec<u8>, word: i64) -> Result<(), NoMemory>
    ensures { OnOk result (out.new.items ≡ out.old.items ++ long_bytes word) }
{
    push_bytes(out, &word.to_be_bytes())
}

fn push_one(out: &mut Vec<u8>, byte: u8, number: u32) -> Result<(), NoMemory>
    ensures { OnOk result (out.new.items ≡ out.old.items ++ byte ∷ word_bytes number) }
{
    push_byte(out, byte)?;
    push_word(out, number)
}

fn push_two(out: &mut Vec<u8>, byte: u8, first: u32, second: u32) -> Result<(), NoMemory>
    ensures { OnOk result (out.new.items ≡ out.old.items ++ byte ∷ word_bytes first ++ word_bytes second) }
{
    push_byte(out, byte)?;
    push_word(out, first)?;
    push_word(out, second)
}
