// The units of a partition, with the results of their compilations.
ghost use Rattle.std.specs.Prelude.{◌≡◌, false, map, IfOk, IfErr, OnOk};
ghost use Rattle.std.specs.List.{All};
ghost use Rattle.al_link_image.specs.Images.{IsUnitName};
ghost use Rattle.al_link.specs.Partitions.{IsLargeOf, compiled_units, some_large};
ghost use Rattle.al_link.specs.Units.{unit_model};

use crate::units::LinkUnit;
use al_base::UnitKey;
use al_code_object::Object;
use al_link_image::LinkFault;
use std::alloc::Global;

/// A unit with the result of its compilation.
#[derive(Clone, Copy)]
pub struct CompiledUnit<'a> {
    /// The unit.
    pub key: &'a UnitKey,
    /// The result of its compilation.
    pub object: &'a Object,
}

// The units with their objects, if each of them has one.
pub(crate) fn compiled<'a>(
    alloc: Global,
    units: &[CompiledUnit<'a>],
) -> Result<Vec<LinkUnit<'a>>, LinkFault>
    requires { All (λ u. IsUnitName u.key.now.name) units.now }
    ensures value { IfOk result (λ found. map unit_model found.items ≡ compiled_units units.now) }
    ensures names { IfOk result (λ found. All (λ u. IsUnitName u.key.now.name) found.items) }
    ensures none_large { OnOk result (some_large units.now ≡ false) }
    ensures fault { IfErr result (IsLargeOf units.now) }
{
    let mut found = Vec::new(alloc);
    for unit in units {
        match unit.object {
            Object::Large => return Err(LinkFault::TooLarge),
            Object::Compiled(object) => {
                let key = unit.key;
                found.push(LinkUnit { key, object })?;
            }
        }
    }
    Ok(found)
}
