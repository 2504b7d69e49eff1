// The starting code.
ghost use Rattle.std.specs.Prelude.{◌≡◌, ◌++◌, map, IfOk, OnOk};
ghost use Rattle.std.specs.List.{All, flat_map};
ghost use Rattle.al_instr.specs.Codes.{IsInstr, code_bytes};
ghost use Rattle.al_link_image.specs.Parts.{IsCode};
ghost use Rattle.al_link.specs.Images.{called, calls_of, start_code};
ghost use Rattle.al_link.specs.Units.{located_model};

use crate::units::{Located, is_item};
use al_base::NoMemory;
use al_instr::{Instr, Plain};
use std::alloc::Global;

// The call of a routine at library level.
fn push_call(code: &mut Vec<Instr>, place: u32) -> Result<(), NoMemory>
    requires { All IsInstr code.old.items }
    ensures code { OnOk result (code.new.items ≡ code.old.items ++ called place) }
    ensures fits { OnOk result (All IsInstr code.new.items) }
{
    code.push(Instr::Plain(Plain::Root))?;
    code.push(Instr::Call { place, words: 0 })?;
    Ok(())
}

// The calls of the items' elaborations.
fn item_calls(alloc: Global, units: &[Located<'_>]) -> Result<Vec<Instr>, NoMemory>
    ensures code { IfOk result (λ code. code.items ≡ flat_map calls_of (map located_model units.now)) }
    ensures fits { IfOk result (λ code. All IsInstr code.items) }
{
    let mut code = Vec::new(alloc);
    for unit in units {
        if is_item(unit.key.kind) {
            push_call(&mut code, unit.before.code)?;
        }
    }
    Ok(code)
}

// The starting code, which calls the main subprogram at a place.
fn start_code(alloc: Global, units: &[Located<'_>], main: u32) -> Result<Vec<Instr>, NoMemory>
    ensures code { IfOk result (λ code. code.items ≡ start_code (map located_model units.now) main) }
    ensures fits { IfOk result (λ code. All IsInstr code.items) }
{
    let mut code = item_calls(alloc, units)?;
    code.push(Instr::Plain(Plain::Go))?;
    push_call(&mut code, main)?;
    code.push(Instr::Plain(Plain::Done))?;
    Ok(code)
}

// The bytes of instructions.
fn bytes_of(alloc: Global, code: &[Instr]) -> Result<Vec<u8>, NoMemory>
    ensures { IfOk result (λ bytes. bytes.items ≡ code_bytes code.now) }
{
    let mut bytes = Vec::new(alloc);
    for instruction in code {
        instruction.encode(&mut bytes)?;
    }
    Ok(bytes)
}

// The bytes of the starting code.
pub(crate) fn start_bytes(
    alloc: Global,
    units: &[Located<'_>],
    main: u32,
) -> Result<Vec<u8>, NoMemory>
    ensures code { IfOk result (λ bytes. bytes.items ≡ code_bytes (start_code (map located_model units.now) main)) }
    ensures is_code { IfOk result (λ bytes. IsCode bytes.items) }
{
    let code = start_code(alloc, units, main)?;
    let bytes = bytes_of(alloc, code.as_slice())?;
    Ok(bytes)
}
