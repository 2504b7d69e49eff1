// Names that a declaration declares, and names that it declares twice (ARM 8.3(26)).
ghost use Rattle.std.specs.Prelude.{◌≡◌, [], IfOk, OnOk};
ghost use Rattle.al_decl_judged.specs.DefiningNames.{duplicate_at, named_so, names_of, repeated};
ghost use Rattle.al_decl_judged.specs.Progressing.{with_all_counted};

use crate::progress::Progress;
use al_base::{Name, NoMemory, Place};
use al_base_fault::{CheckRule, Fault};
use al_view::{Seq, Symbol};
use indexmap::IndexSet;
use std::alloc::Global;

/// A defining name in lower case, and its place.
pub struct DefiningName {
    /// The name in lower case.
    pub name: Name,
    /// The place of its first token.
    pub place: Place,
}

impl Drop for DefiningName {
    fn drop(self) {
        let DefiningName { name: _, place: _ } = self;
    }
}

/// The name of a type that is declared.
pub struct TypeName {
    /// The defining name.
    pub defining: DefiningName,
    /// If the declaration completes a private type (ARM 7.3(4)), the symbol of that type: it is the same type.
    pub partial: Option<Symbol>,
}

impl Drop for TypeName {
    fn drop(self) {
        let TypeName {
            defining: _,
            partial: _,
        } = self;
    }
}

/// E301 at that name.
pub fn duplicate_at(name: &DefiningName) -> Fault
    ensures { result ≡ duplicate_at name.now }
{
    let rule = CheckRule::Duplicate;
    Fault {
        place: name.place,
        rule,
    }
}

/// E301 at the first of these names that is among those before it.
/// # Errors
/// `NoMemory` if the allocator refuses memory.
pub fn repeated(alloc: Global, names: &[DefiningName]) -> Result<Option<Fault>, NoMemory>
    ensures { IfOk result (λ fault. fault ≡ repeated [] names.now) }
{
    let mut seen: IndexSet<Name> = IndexSet::new(alloc);
    for name in names {
        if seen.contains(&name.name) {
            return Ok(Some(duplicate_at(name)));
        }
        let spelled = Name::from_slice(alloc, name.name.as_slice())?;
        seen.insert(spelled)?;
    }
    Ok(None)
}

/// E301 at the first of these names that is this one.
pub fn named_so(name: &[u8], names: &[DefiningName]) -> Option<Fault>
    ensures { result ≡ named_so name.now names.now }
{
    match names.iter().find(|other| other.name.as_slice() == name) {
        Some(found) => Some(duplicate_at(found)),
        None => None,
    }
}

/// The names alone.
pub(crate) fn names_of(alloc: Global, names: &[DefiningName]) -> Result<Seq<Name>, NoMemory>
    ensures { IfOk result (λ row. row ≡ names_of names.now) }
{
    let mut row = Seq::empty(alloc);
    for name in names {
        row.push(Name::from_slice(alloc, name.name.as_slice())?)?;
    }
    Ok(row)
}

/// Counts one more declaration of each name.
pub(crate) fn count_all(progress: &mut Progress, names: &[DefiningName]) -> Result<(), NoMemory>
    ensures { OnOk result (progress.new ≡ with_all_counted progress.old (names_of names.now)) }
{
    for name in names {
        progress.count(name.name.as_slice())?;
    }
    Ok(())
}
