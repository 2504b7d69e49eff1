// Short rows of instructions, of which longer ones are made.
ghost use Rattle.std.specs.Prelude.{◌≡◌, [], ◌∷◌, OnOk};
ghost use Rattle.al_view.specs.declared.link.LinkKind.TheVariants.{Data, Flag};
ghost use Rattle.al_instr.specs.declared.instruction.Instr.TheVariants.{Frame};
ghost use Rattle.al_code.specs.Pieces.Piece.{Whole};
ghost use Rattle.al_code.specs.Written.{written};
ghost use Rattle.al_code.specs.ExprPieces.{check_code, join, load_slot, number, of_size, one, place_code, slot, store_slot, unless_zero};

use crate::{JumpCondition, Output, Target};
use al_base::NoMemory;
use al_instr::{Instr, Plain, Sized};
use al_view::{Bounds, LinkKind, ObjectPlace};

/// Writes an instruction without operands.
///
/// # Errors
/// `NoMemory` if the allocator refuses memory.
pub fn emit_plain(out: &mut Output, plain: Plain) -> Result<(), NoMemory>
    ensures { OnOk result (out.new ≡ written out.old (one plain)) }
{
    out.put(&Instr::Plain(plain))
}

/// Writes an instruction with a number of words, an offset or a code.
///
/// # Errors
/// `NoMemory` if the allocator refuses memory.
pub fn emit_sized(out: &mut Output, sized: Sized, number: u32) -> Result<(), NoMemory>
    ensures { OnOk result (out.new ≡ written out.old (of_size sized number)) }
{
    out.put(&Instr::Sized(sized, number))
}

/// Writes the load of a constant word.
///
/// # Errors
/// `NoMemory` if the allocator refuses memory.
pub fn emit_number(out: &mut Output, word: i64) -> Result<(), NoMemory>
    ensures { OnOk result (out.new ≡ written out.old (number word)) }
{
    out.put(&Instr::Const(word))
}

/// Writes the address of a word of the frame.
///
/// # Errors
/// `NoMemory` if the allocator refuses memory.
pub fn emit_slot(out: &mut Output, word: u32) -> Result<(), NoMemory>
    ensures { OnOk result (out.new ≡ written out.old (slot word)) }
{
    out.put(&Instr::Frame { depth: 0, word })
}

/// Writes the store of the word on top to a word of the frame.
///
/// # Errors
/// `NoMemory` if the allocator refuses memory.
#[tactic(auto, using(crate::proofs::Writing::written_append), unfolding(crate::specs::ExprPieces::store_slot))]
pub fn emit_store_slot(out: &mut Output, word: u32) -> Result<(), NoMemory>
    ensures { OnOk result (out.new ≡ written out.old (store_slot word)) }
{
    emit_slot(out, word)?;
    emit_sized(out, Sized::Store, 1)
}

/// Writes the load of a word of the frame.
///
/// # Errors
/// `NoMemory` if the allocator refuses memory.
#[tactic(auto, using(crate::proofs::Writing::written_append), unfolding(crate::specs::ExprPieces::load_slot))]
pub fn emit_load_slot(out: &mut Output, word: u32) -> Result<(), NoMemory>
    ensures { OnOk result (out.new ≡ written out.old (load_slot word)) }
{
    emit_slot(out, word)?;
    emit_sized(out, Sized::Load, 1)
}

/// Writes the check against the bounds of a scalar subtype, if it has bounds.
///
/// # Errors
/// `NoMemory` if the allocator refuses memory.
#[tactic(auto, using(crate::proofs::Writing::written_nothing))]
pub fn emit_check(out: &mut Output, bounds: &Option<Bounds>) -> Result<(), NoMemory>
    ensures { OnOk result (out.new ≡ written out.old (check_code bounds.now)) }
{
    match bounds {
        None => Ok(()),
        Some(bounds) => out.put(&Instr::Check {
            low: bounds.low,
            high: bounds.high,
        }),
    }
}

/// Writes the address of an object, in a body of nesting depth `depth`.
///
/// # Errors
/// `NoMemory` if the allocator refuses memory.
pub fn emit_place(out: &mut Output, depth: u32, place: &ObjectPlace) -> Result<(), NoMemory>
    ensures { OnOk result (out.new ≡ written out.old (place_code Data depth place.now)) }
{
    match place {
        ObjectPlace::Frame { depth: d, word } => emit_outer(out, depth.saturating_sub(*d), *word),
        ObjectPlace::Static { symbol, word } => {
            out.emit_using(&Instr::Global(*word), LinkKind::Data, symbol)
        }
    }
}

/// Writes the address of a flag, in a body of nesting depth `depth`.
///
/// # Errors
/// `NoMemory` if the allocator refuses memory.
pub fn emit_flag_place(out: &mut Output, depth: u32, place: &ObjectPlace) -> Result<(), NoMemory>
    ensures { OnOk result (out.new ≡ written out.old (place_code Flag depth place.now)) }
{
    match place {
        ObjectPlace::Frame { depth: d, word } => emit_outer(out, depth.saturating_sub(*d), *word),
        ObjectPlace::Static { symbol, word } => {
            out.emit_using(&Instr::Global(*word), LinkKind::Flag, symbol)
        }
    }
}

/// Writes the address of a word of the frame that is so many static links out.
fn emit_outer(out: &mut Output, depth: u32, word: u32) -> Result<(), NoMemory>
    ensures { OnOk result (out.new ≡ written out.old (Whole (Frame depth word) ∷ [])) }
{
    out.put(&Instr::Frame { depth, word })
}

/// Writes a jump to the end of the innermost `if`, `case` or short-circuit form.
///
/// # Errors
/// `NoMemory` if the allocator refuses memory.
pub fn emit_join(out: &mut Output) -> Result<(), NoMemory>
    ensures { OnOk result (out.new ≡ written out.old join) }
{
    out.emit_leaving(JumpCondition::Always, Target::Join)
}

/// Writes a jump to the end of the innermost test, taken if the word on top is 0.
///
/// # Errors
/// `NoMemory` if the allocator refuses memory.
pub fn emit_unless_zero(out: &mut Output) -> Result<(), NoMemory>
    ensures { OnOk result (out.new ≡ written out.old unless_zero) }
{
    out.emit_leaving(JumpCondition::IfZero, Target::Next)
}
