// Reading instructions.
ghost use Rattle.std.specs.Prelude.{◌≡◌, [], ◌++◌, List, ℕ, IfOk};
ghost use Rattle.al_instr.specs.declared.instruction.Instr.{Instr};
ghost use Rattle.al_instr.specs.Codes.{IsInstr, encoded};
ghost use Rattle.al_instr.specs.Reading.{Gives, found_with, word_at, jump_at, double_at, long_at, text_at, name_at, names_at, names_after, decoded, numbered, other};

use crate::fault::DecodeFault;
use crate::instruction::Instr;
use crate::numbers::{Plain, Protected, Sized};
use crate::text::{Text, Word, Words};
use std::alloc::Global;

/// The instruction with whose bytes the code begins, and the bytes after it.
///
/// # Errors
///
/// `Damaged` if the bytes don't begin with those of an instruction; `NoMemory` if the allocator refuses memory.
pub fn decode(alloc: Global, bytes: &[u8]) -> Result<(Instr, &[u8]), DecodeFault>
    ensures found { IfOk result (λ x. bytes.now ≡ encoded x.0 ++ x.1.now) }
    ensures fits { IfOk result (λ x. IsInstr x.0) }
    ensures again { (i : Instr) (rest : List ℕ) → IsInstr i → bytes.now ≡ encoded i ++ rest → Gives (λ x. (x.0, x.1.now)) result (found_with i rest) }
{
    front(alloc, bytes)
}

fn front(alloc: Global, bytes: &[u8]) -> Result<(Instr, &[u8]), DecodeFault>
    ensures { Gives (λ x. (x.0, x.1.now)) result (decoded bytes.now) }
{
    let Some((number, rest)) = bytes.split_first() else {
        return Err(DecodeFault::Damaged);
    };
    numbered(alloc, *number, rest)
}

#[tactic(auto, unfolding(crate::specs::Reading::numbered))]
fn numbered(alloc: Global, number: u8, bytes: &[u8]) -> Result<(Instr, &[u8]), DecodeFault>
    ensures { Gives (λ x. (x.0, x.1.now)) result (numbered number bytes.now) }
{
    if let Some(plain) = Plain::of(number) {
        return Ok((Instr::Plain(plain), bytes));
    }
    if let Some(sized) = Sized::of(number) {
        let (operand, rest) = word_at(bytes)?;
        return Ok((Instr::Sized(sized, operand), rest));
    }
    if let Some(action) = Protected::of(number) {
        let (operand, rest) = word_at(bytes)?;
        return Ok((Instr::Protected(action, operand), rest));
    }
    other(alloc, number, bytes)
}

#[tactic(auto, unfolding(crate::specs::Reading::other))]
fn other(alloc: Global, number: u8, bytes: &[u8]) -> Result<(Instr, &[u8]), DecodeFault>
    ensures { Gives (λ x. (x.0, x.1.now)) result (other number bytes.now) }
{
    if number == 0x00 {
        let (word, rest) = long_at(bytes)?;
        return Ok((Instr::Const(word), rest));
    }
    if number == 0x01 {
        let (depth, rest) = word_at(bytes)?;
        let (word, rest) = word_at(rest)?;
        return Ok((Instr::Frame { depth, word }, rest));
    }
    if number == 0x02 {
        let (place, rest) = word_at(bytes)?;
        return Ok((Instr::Global(place), rest));
    }
    if number == 0x08 {
        let (low, rest) = long_at(bytes)?;
        let (high, rest) = long_at(rest)?;
        return Ok((Instr::Check { low, high }, rest));
    }
    if number == 0x09 {
        let (low, rest) = long_at(bytes)?;
        let (high, rest) = long_at(rest)?;
        let (words, rest) = word_at(rest)?;
        return Ok((Instr::Index { low, high, words }, rest));
    }
    if number == 0x0b {
        let (distance, rest) = jump_at(bytes)?;
        return Ok((Instr::Jump(distance), rest));
    }
    if number == 0x0c {
        let (distance, rest) = jump_at(bytes)?;
        return Ok((Instr::JumpZero(distance), rest));
    }
    if number == 0x32 {
        let (place, rest) = word_at(bytes)?;
        let (words, rest) = word_at(rest)?;
        return Ok((Instr::Call { place, words }, rest));
    }
    if number == 0x40 {
        let (text, rest) = text_at(alloc, bytes)?;
        return Ok((Instr::PutText(text), rest));
    }
    if number == 0x42 {
        let (below, rest) = word_at(bytes)?;
        let (names, rest) = names_at(alloc, rest)?;
        return Ok((Instr::PutName { below, names }, rest));
    }
    if number == 0x50 {
        let (place, rest) = word_at(bytes)?;
        let (priority, rest) = word_at(rest)?;
        return Ok((Instr::Task { place, priority }, rest));
    }
    if number == 0x5c {
        let (place, rest) = word_at(bytes)?;
        let (words, rest) = word_at(rest)?;
        return Ok((Instr::Seed { place, words }, rest));
    }
    Err(DecodeFault::Damaged)
}

/// The number in four bytes at the beginning, and what is after it.
#[tactic(auto, unfolding(crate::specs::Reading::word_at))]
fn word_at(bytes: &[u8]) -> Result<(u32, &[u8]), DecodeFault>
    ensures { Gives (λ x. (x.0, x.1.now)) result (word_at bytes.now) }
{
    if bytes.len() < 4 {
        return Err(DecodeFault::Damaged);
    }
    let (front, rest) = bytes.split_at(4);
    let number = u32::from_be_bytes([front[0], front[1], front[2], front[3]]);
    Ok((number, rest))
}

#[tactic(auto, unfolding(crate::specs::Reading::jump_at))]
fn jump_at(bytes: &[u8]) -> Result<(i32, &[u8]), DecodeFault>
    ensures { Gives (λ x. (x.0, x.1.now)) result (jump_at bytes.now) }
{
    let (number, rest) = word_at(bytes)?;
    Ok((number.cast_signed(), rest))
}

#[tactic(auto, unfolding(crate::specs::Reading::double_at))]
fn double_at(bytes: &[u8]) -> Result<(u64, &[u8]), DecodeFault>
    ensures { Gives (λ x. (x.0, x.1.now)) result (double_at bytes.now) }
{
    if bytes.len() < 8 {
        return Err(DecodeFault::Damaged);
    }
    let (front, rest) = bytes.split_at(8);
    let number = u64::from_be_bytes([
        front[0], front[1], front[2], front[3], front[4], front[5], front[6], front[7],
    ]);
    Ok((number, rest))
}

#[tactic(auto, unfolding(crate::specs::Reading::long_at))]
fn long_at(bytes: &[u8]) -> Result<(i64, &[u8]), DecodeFault>
    ensures { Gives (λ x. (x.0, x.1.now)) result (long_at bytes.now) }
{
    let (number, rest) = double_at(bytes)?;
    Ok((number.cast_signed(), rest))
}

#[tactic(auto, unfolding(crate::specs::Reading::text_at))]
fn text_at(alloc: Global, bytes: &[u8]) -> Result<(Text, &[u8]), DecodeFault>
    ensures { Gives (λ x. (x.0, x.1.now)) result (text_at bytes.now) }
{
    let (len, rest) = word_at(bytes)?;
    let len = len as usize;
    if rest.len() < len {
        return Err(DecodeFault::Damaged);
    }
    let (text, rest) = rest.split_at(len);
    Ok((Text::from_slice(alloc, text)?, rest))
}

#[tactic(auto, unfolding(crate::specs::Reading::name_at))]
fn name_at(alloc: Global, bytes: &[u8]) -> Result<(Word, &[u8]), DecodeFault>
    ensures { Gives (λ x. (x.0, x.1.now)) result (name_at bytes.now) }
{
    let Some((len, rest)) = bytes.split_first() else {
        return Err(DecodeFault::Damaged);
    };
    let len = *len as usize;
    if rest.len() < len {
        return Err(DecodeFault::Damaged);
    }
    let (name, rest) = rest.split_at(len);
    Ok((Word::from_slice(alloc, name)?, rest))
}

#[tactic(auto, unfolding(crate::specs::Reading::names_at))]
fn names_at(alloc: Global, bytes: &[u8]) -> Result<(Words, &[u8]), DecodeFault>
    ensures { Gives (λ x. (x.0, x.1.now)) result (names_at bytes.now) }
{
    let (count, rest) = word_at(bytes)?;
    many_names(alloc, count, rest)
}

#[tactic(auto, using(crate::proofs::NameFields::one_more, crate::proofs::NameFields::no_name, crate::proofs::NameFields::all_names))]
fn many_names(alloc: Global, count: u32, bytes: &[u8]) -> Result<(Words, &[u8]), DecodeFault>
    ensures { Gives (λ x. (x.0, x.1.now)) result (names_after [] count bytes.now) }
{
    let mut names = Words::new(alloc);
    let mut rest = bytes;
    for index in 0..count {
        let (name, after) = name_at(alloc, rest)?;
        names.push(name)?;
        rest = after;
    }
    Ok((names, rest))
}
