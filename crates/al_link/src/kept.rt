// What a linked image keeps of its units.
ghost use Rattle.std.specs.Prelude.{◌≡◌, ◌↔◌, ◌∷◌, [], Some, IsTrue, ◌≤◌, map, IfOk};
ghost use Rattle.al_link.specs.Kept.{kept_model};
ghost use Rattle.al_link.specs.Partitions.{compiled_units, with_object};
ghost use Rattle.al_link.specs.Relinking.{differing, differs, left_shape, shape_of, shapes_kept, shapes_left};

use crate::linking::CompiledUnit;
use al_base::{NoMemory, UnitKey};
use al_code_object::{Address, Compiled, Object, Region, Relocation, are_same_lines};
use al_instr::LineEntry;
use al_view::{LinkSymbol, Same, are_same, copied_unit};
use std::alloc::Global;

/// A unit and what was linked of it.
pub(crate) struct KeptUnit {
    pub(crate) key: UnitKey,
    pub(crate) code: Vec<u8>,
    pub(crate) uses: Vec<Relocation>,
    pub(crate) defines: Vec<Address>,
    pub(crate) data_words: u32,
    pub(crate) tasks: u32,
    pub(crate) protected: Vec<Region>,
    pub(crate) lines: Vec<LineEntry>,
}

impl Drop for KeptUnit {
    fn drop(self) {
        let KeptUnit {
            key: _,
            code: _,
            uses: _,
            defines: _,
            data_words: _,
            tasks: _,
            protected: _,
            lines: _,
        } = self;
    }
}

// A copy of a symbol.
pub(crate) fn copied_symbol(alloc: Global, symbol: &LinkSymbol) -> Result<LinkSymbol, NoMemory>
    ensures { IfOk result (λ copy. copy ≡ symbol.now) }
{
    let kind = symbol.kind;
    let symbol = symbol.symbol.copy(alloc)?;
    Ok(LinkSymbol { symbol, kind })
}

fn copied_uses(alloc: Global, uses: &[Relocation]) -> Result<Vec<Relocation>, NoMemory>
    ensures { IfOk result (λ copy. copy.items ≡ uses.now) }
{
    let mut copy = Vec::new(alloc);
    for one in uses {
        let symbol = copied_symbol(alloc, &one.symbol)?;
        copy.push(Relocation {
            place: one.place,
            symbol,
        })?;
    }
    Ok(copy)
}

fn copied_defines(alloc: Global, defines: &[Address]) -> Result<Vec<Address>, NoMemory>
    ensures { IfOk result (λ copy. copy.items ≡ defines.now) }
{
    let mut copy = Vec::new(alloc);
    for one in defines {
        let symbol = copied_symbol(alloc, &one.symbol)?;
        copy.push(Address {
            symbol,
            offset: one.offset,
        })?;
    }
    Ok(copy)
}

// What is kept of a unit whose symbols were copied.
fn kept_with(
    alloc: Global,
    key: &UnitKey,
    object: &Compiled,
    uses: Vec<Relocation>,
    defines: Vec<Address>,
) -> Result<KeptUnit, NoMemory>
    requires uses { uses.items ≡ object.now.uses }
    requires defines { defines.items ≡ object.now.defines }
    ensures { IfOk result (λ kept. kept_model kept ≡ record { key = key.now; object = object.now }) }
{
    Ok(KeptUnit {
        key: copied_unit(alloc, key)?,
        code: Vec::from_slice(alloc, object.code())?,
        uses,
        defines,
        data_words: object.data_words(),
        tasks: object.tasks(),
        protected: Vec::from_slice(alloc, object.protected())?,
        lines: Vec::from_slice(alloc, object.lines())?,
    })
}

// What is kept of a unit.
fn kept_of(alloc: Global, key: &UnitKey, object: &Compiled) -> Result<KeptUnit, NoMemory>
    ensures { IfOk result (λ kept. kept_model kept ≡ record { key = key.now; object = object.now }) }
{
    let uses = copied_uses(alloc, object.uses())?;
    let defines = copied_defines(alloc, object.defines())?;
    kept_with(alloc, key, object, uses, defines)
}

// What is kept of units that have objects.
pub(crate) fn all_kept(alloc: Global, units: &[CompiledUnit<'_>]) -> Result<Vec<KeptUnit>, NoMemory>
    ensures { IfOk result (λ kept. map kept_model kept.items ≡ compiled_units units.now) }
{
    let mut kept = Vec::new(alloc);
    for unit in units {
        if let Object::Compiled(object) = unit.object {
            kept.push(kept_of(alloc, unit.key, object)?)?;
        }
    }
    Ok(kept)
}

// Whether an object is as before in its lengths, counts, symbols and lines.
pub(crate) fn is_same_object(kept: &KeptUnit, object: &Compiled) -> bool
    ensures { IsTrue result ↔ (shape_of (record { key = kept.now.key; object = object.now }) ≡ shape_of (kept_model kept.now)) }
{
    kept.code.len() == object.code().len()
        && kept.data_words == object.data_words()
        && kept.tasks == object.tasks()
        && are_same(kept.uses.as_slice(), object.uses())
        && are_same(kept.defines.as_slice(), object.defines())
        && kept.protected.len() == object.protected().len()
        && are_same_lines(kept.lines.as_slice(), object.lines())
}

// Whether a unit has the same key as before, and its object is as before in its lengths, counts, symbols and lines.
fn is_same_unit(kept: &KeptUnit, unit: &CompiledUnit<'_>) -> bool
    ensures { IsTrue result ↔ (left_shape unit.now.key.now unit.now.object.now ≡ Some (shape_of (kept_model kept.now))) }
{
    match unit.object {
        Object::Large => false,
        Object::Compiled(object) => unit.key.is_same(&kept.key) && is_same_object(kept, object),
    }
}

// Whether all units have the same keys as before, and their objects are as before in their lengths, counts, symbols and lines.
pub(crate) fn are_same_units(kept: &[KeptUnit], units: &[CompiledUnit<'_>]) -> bool
    ensures { IsTrue result ↔ (shapes_left units.now ≡ shapes_kept (map kept_model kept.now)) }
{
    if kept.len() != units.len() {
        return false;
    }
    for i in 0..kept.len() {
        if !is_same_unit(&kept[i], &units[i]) {
            return false;
        }
    }
    true
}

// Keeps the code of an object that is as before except for that. Gives 1 if the code differed, else 0.
pub(crate) fn keep_code(kept: &mut KeptUnit, object: &Compiled) -> usize
    requires { shape_of (record { key = kept.old.key; object = object.now }) ≡ shape_of (kept_model kept.old) }
    ensures kept { kept_model kept.new ≡ record { key = kept.old.key; object = object.now } }
    ensures differs { result ≡ differs (kept_model kept.old) (kept_model kept.new) }
    ensures small { result ≤ 1 }
{
    kept.protected.copy_from_slice(object.protected());
    if kept.code.as_slice() == object.code() {
        return 0;
    }
    kept.code.copy_from_slice(object.code());
    1
}

// Keeps the code of a unit that is as before except for that. Gives 1 if the code differed, else 0.
fn keep_one(kept: &mut KeptUnit, unit: &CompiledUnit<'_>) -> usize
    requires { left_shape unit.now.key.now unit.now.object.now ≡ Some (shape_of (kept_model kept.old)) }
    ensures kept { with_object unit.now.key.now unit.now.object.now ≡ kept_model kept.new ∷ [] }
    ensures differs { result ≡ differs (kept_model kept.old) (kept_model kept.new) }
    ensures small { result ≤ 1 }
{
    match unit.object {
        Object::Large => 0,
        Object::Compiled(object) => keep_code(kept, object),
    }
}

// Keeps the code of units that are as before except for that. Gives the number of units whose code differed.
pub(crate) fn keep_all(kept: &mut [KeptUnit], units: &[CompiledUnit<'_>]) -> usize
    requires { shapes_left units.now ≡ shapes_kept (map kept_model kept.old) }
    ensures kept { map kept_model kept.new ≡ compiled_units units.now }
    ensures count { result ≡ differing (map kept_model kept.old) (compiled_units units.now) }
{
    let mut count = 0;
    for i in 0..kept.len() {
        count += keep_one(&mut kept[i], &units[i]);
    }
    count
}
