// The instructions of code.
ghost use Rattle.std.specs.Prelude.{◌≡◌, List, IfOk, OnOk};
ghost use Rattle.std.specs.List.{All};
ghost use Rattle.al_instr.specs.declared.instruction.Instr.{Instr};
ghost use Rattle.al_instr.specs.Codes.{IsInstr, code_bytes};
ghost use Rattle.al_link_image.specs.Parts.{IsCode, code_of};
ghost use Rattle.al_link_image.specs.Images.{IsNotDamaged};

use crate::fault::LinkFault;
use al_base::NoMemory;
use al_instr::{Instr, decode};
use std::alloc::Global;

/// The instructions whose bytes these are, one after the other.
pub(crate) fn instructions_at(alloc: Global, bytes: &[u8]) -> Result<Vec<Instr>, LinkFault>
    ensures code { OnOk result (IsCode bytes.now) }
    ensures value { IfOk result (λ instructions. instructions.items ≡ code_of bytes.now) }
    ensures again { (code : List Instr) → All IsInstr code → bytes.now ≡ code_bytes code → IsNotDamaged result }
{
    let mut instructions = Vec::new(alloc);
    let mut rest = bytes;
    'instructions: while rest.len() > 0 {
        let (instruction, behind) = decode(alloc, rest)?;
        instructions.push(instruction)?;
        rest = behind;
    }
    Ok(instructions)
}

/// The instructions of a code.
pub(crate) fn instructions_of(alloc: Global, bytes: &[u8]) -> Result<Vec<Instr>, NoMemory>
    requires { IsCode bytes.now }
    ensures { IfOk result (λ instructions. instructions.items ≡ code_of bytes.now) }
{
    match instructions_at(alloc, bytes) {
        Ok(instructions) => Ok(instructions),
        Err(LinkFault::NoMemory) => Err(NoMemory),
        Err(_) => unreachable!(),
    }
}
