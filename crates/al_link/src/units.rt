// The linker's input.
ghost use Rattle.std.specs.Prelude.{◌≡◌, ◌+◌, ◌≤◌, length, map, sum_by, IfOk, IfErr};
ghost use Rattle.std.specs.List.{All};
ghost use Rattle.al_link.specs.Bases.{AreSmall, next_bases};
ghost use Rattle.al_link.specs.Units.{bases_after, located, located_model, unit_model};
ghost use Rattle.al_link_image.specs.Images.{IsUnitName};
ghost use Rattle.al_link.specs.Units as sums;
ghost use Rattle.al_link.specs.Faults.{IsPassing};

use crate::bases::{Bases, next_bases};
use al_base::{UnitKey, UnitKind};
use al_code_object::Compiled;
use al_link_image::LinkFault;
use std::alloc::Global;

/// A unit with its object.
#[derive(Clone, Copy)]
pub(crate) struct LinkUnit<'a> {
    pub(crate) key: &'a UnitKey,
    pub(crate) object: &'a Compiled,
}

// A unit, and what precedes its object.
#[derive(Clone, Copy)]
pub(crate) struct Located<'a> {
    pub(crate) key: &'a UnitKey,
    pub(crate) object: &'a Compiled,
    pub(crate) before: Bases,
}

// Whether the starting code elaborates a unit of this kind.
pub(crate) fn is_item(kind: UnitKind) -> bool
    ensures { result ≡ sums.is_item kind }
{
    match kind {
        UnitKind::Decl | UnitKind::Body => true,
        UnitKind::Sub => false,
    }
}

// What precedes the first object: the starting code.
pub(crate) fn first_bases(units: &[LinkUnit<'_>]) -> Bases
    requires { length units.now ≤ 65535 }
    ensures value { result ≡ sums.first_bases (map unit_model units.now) }
    ensures small { AreSmall result }
{
    let mut size = 12;
    for unit in units {
        if is_item(unit.key.kind) {
            size += 10;
        }
    }
    Bases {
        code: size,
        words: 0,
        objects: 0,
        tasks: 0,
    }
}

// The units with what precedes each of them, and what precedes the end.
pub(crate) fn locate<'a>(
    alloc: Global,
    first: Bases,
    units: &[LinkUnit<'a>],
) -> Result<(Vec<Located<'a>>, Bases), LinkFault>
    requires small { AreSmall first }
    requires names { All (λ u. IsUnitName u.key.now.name) units.now }
    ensures located { IfOk result (λ x. map located_model x.0.items ≡ located first (map unit_model units.now)) }
    ensures after { IfOk result (λ x. x.1 ≡ bases_after first (map unit_model units.now)) }
    ensures small { IfOk result (λ x. AreSmall x.1) }
    ensures each { IfOk result (λ x. All (λ l. AreSmall (next_bases l.before l.object.now)) x.0.items) }
    ensures names { IfOk result (λ x. All (λ l. IsUnitName l.key.now.name) x.0.items) }
    ensures words { IfOk result (λ x. All (λ l. l.before.words + l.object.now.data_words ≤ x.1.words) x.0.items) }
    ensures code { IfOk result (λ x. first.code + sum_by (λ l. length l.object.now.code) x.0.items ≡ x.1.code) }
    ensures objects { IfOk result (λ x. first.objects + sum_by (λ l. length l.object.now.protected) x.0.items ≡ x.1.objects) }
    ensures count { IfOk result (λ x. length x.0.items ≡ length units.now) }
    ensures fault { IfErr result (λ fault. IsPassing (bases_after first (map unit_model units.now)) fault) }
{
    let mut list = Vec::new(alloc);
    let mut before = first;
    for unit in units {
        let Some(next) = next_bases(before, unit.object) else {
            return Err(LinkFault::TooLarge);
        };
        list.push(Located {
            key: unit.key,
            object: unit.object,
            before,
        })?;
        before = next;
    }
    Ok((list, before))
}
