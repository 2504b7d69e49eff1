// Code that is written over other code.
ghost use Rattle.std.specs.Prelude.{◌≡◌, ◌+◌, ◌≤◌, ◌++◌, length, take};
ghost use Rattle.std.specs.List.{All};
ghost use Rattle.al_code_object.specs.Objects.{Keeps};
ghost use Rattle.al_link_image.specs.Parts.{IsCode};
ghost use Rattle.al_link.specs.Kept.{IsKeeping};
ghost use Rattle.al_link.specs.Linking.{patched};
ghost use Rattle.al_link.specs.Partitions.{compiled_units};
ghost use Rattle.al_link.specs.Relinking.{code_size, linked_units};

use crate::linking::CompiledUnit;
use crate::patch::patch;
use crate::places::Places;
use al_code_object::{Compiled, Object};

// Writes an object's code over what is at its place, and fills in its operands.
fn write_object(code: &mut [u8], base: usize, object: &Compiled, places: &Places)
    requires fits { base + length object.now.code ≤ length code.old }
    requires small { base ≤ 16777216 }
    ensures { take (base + length object.now.code) code.new ≡ patched places.now object.now.code base (take base code.old ++ object.now.code) object.now.uses }
{
    object.keeps();
    let end = base + object.code().len();
    code[base..end].copy_from_slice(object.code());
    patch(code, base, object.code(), object.uses(), places);
}

// Writes an object's code over what is at its place. If what precedes it is a row of instructions, so is the whole.
fn write_code(code: &mut [u8], base: usize, object: &Compiled, places: &Places)
    requires fits { base + length object.now.code ≤ length code.old }
    requires small { base ≤ 16777216 }
    requires is_code { IsCode (take base code.old) }
    ensures written { take (base + length object.now.code) code.new ≡ patched places.now object.now.code base (take base code.old ++ object.now.code) object.now.uses }
    ensures is_code { IsCode (take (base + length object.now.code) code.new) }
    ensures keeps { Keeps object.now }
{
    object.keeps();
    write_object(code, base, object, places);
}

// Writes the code of units, one after the other, over what follows the starting code, up to the end.
fn write_units(code: &mut [u8], start: usize, units: &[CompiledUnit<'_>], places: &Places)
    requires size { start + code_size (compiled_units units.now) ≡ length code.old }
    requires small { length code.old ≤ 16777216 }
    requires is_code { IsCode (take start code.old) }
    ensures written { code.new ≡ linked_units places.now (take start code.old) (compiled_units units.now) }
    ensures is_code { IsCode code.new }
    ensures keep { All IsKeeping (compiled_units units.now) }
{
    let mut base = start;
    for unit in units {
        if let Object::Compiled(object) = unit.object {
            write_code(code, base, object, places);
            base += object.code().len();
        }
    }
}

// Writes the starting code and the code of units over other code of the same length.
pub(crate) fn write_all(code: &mut [u8], start: &[u8], units: &[CompiledUnit<'_>], places: &Places)
    requires size { length start.now + code_size (compiled_units units.now) ≡ length code.old }
    requires small { length code.old ≤ 16777216 }
    requires is_code { IsCode start.now }
    ensures written { code.new ≡ linked_units places.now start.now (compiled_units units.now) }
    ensures is_code { IsCode code.new }
    ensures keep { All IsKeeping (compiled_units units.now) }
{
    code[..start.len()].copy_from_slice(start);
    write_units(code, start.len(), units, places);
}
