// Which file holds a unit.
ghost use Rattle.std.specs.Prelude.{◌≡◌, map, IfOk};
ghost use Rattle.al_base.specs.Batch.{key_of};
ghost use Rattle.al_base.specs.FileNames.{hyphen_for_dot, with_tilde, ending_of, file_name_of};

use crate::name::Name;
use crate::refusal::NoMemory;
use crate::unit_key::{UnitKey, UnitKind};
use std::alloc::Global;

#[tactic(auto, unfolding(crate::specs::FileNames::file_name_of))]
/// The name of the file that holds the unit, as GNAT gives it: the unit's name with hyphens for its dots, and then `.ads`
/// for a declaration, `.adb` for a body or a subunit. A name that would begin with `a-`, `g-`, `i-` or `s-`, as those of
/// the predefined files do, has a tilde for that hyphen.
///
/// # Errors
///
/// `NoMemory` if the allocator refuses memory.
pub fn file_name_of(alloc: Global, key: &UnitKey) -> Result<Name, NoMemory>
    ensures { IfOk result (λ name. name ≡ file_name_of (key_of key.now)) }
{
    let mut bytes = hyphened(alloc, key.name.as_slice())?;
    put_tilde(&mut bytes);
    bytes.extend_from_slice(ending_of(key.kind))?;
    Ok(Name::new(bytes))
}

fn hyphened(alloc: Global, name: &[u8]) -> Result<Vec<u8>, NoMemory>
    ensures { IfOk result (λ bytes. bytes.items ≡ map hyphen_for_dot name.now) }
{
    let bytes = name.iter().map(|b| hyphen_for_dot(*b)).collect(alloc)?;
    Ok(bytes)
}

pub(crate) fn hyphen_for_dot(b: u8) -> u8
    ensures { result ≡ hyphen_for_dot b }
{
    if b == b'.' { b'-' } else { b }
}

pub(crate) fn put_tilde(name: &mut [u8])
    ensures { name.new ≡ with_tilde name.old }
{
    if let [b'a' | b'g' | b'i' | b's', second @ b'-', ..] = name {
        *second = b'~';
    }
}

pub(crate) fn ending_of(kind: UnitKind) -> &'static [u8]
    ensures { result.now ≡ ending_of kind }
{
    match kind {
        UnitKind::Decl => b".ads",
        UnitKind::Body | UnitKind::Sub => b".adb",
    }
}
