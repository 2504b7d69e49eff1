// The names of an object declaration with their subtypes (ARM 3.3.1).
ghost use Rattle.std.specs.Prelude.{◌≡◌, [], IfOk, OnOk};
ghost use Rattle.al_decl_judged.specs.TypeObjects.{whole_subtype};
ghost use Rattle.al_decl_judged.specs.Types.{array_type, array_view};
ghost use Rattle.al_decl_judged.specs.Declaring.{joined};
ghost use Rattle.al_decl_judged.specs.DefiningNames.{names_of};
ghost use Rattle.al_decl_judged.specs.Objects.{new_object, new_objects, subtype_for};
ghost use Rattle.al_decl_judged.specs.Progressing.{with_all_counted, with_counted};
ghost use Rattle.al_base_fault.specs.Judging.{map_ok};

use crate::array_type;
use crate::names::DefiningName;
use crate::progress::Progress;
use al_base::{Name, NoMemory, Place};
use al_base_fault::CheckResult;
use al_view::{Seq, Subtype, SubtypeView, Symbol, Types};
use al_view_predefined::{StandardTypes, no_names};
use std::alloc::Global;

/// What comes after the colon of an object declaration.
pub enum ObjectType {
    /// A subtype.
    Marked(SubtypeView),
    /// An array type without a name, by its index subtype and its component subtype (ARM 3.6).
    AnonymousArray {
        /// The index subtype.
        index: SubtypeView,
        /// The component subtype.
        component: SubtypeView,
    },
}

impl Drop for ObjectType {
    fn drop(self) {
        match self {
            ObjectType::Marked(_) => {}
            ObjectType::AnonymousArray {
                index: _,
                component: _,
            } => {}
        }
    }
}

/// An object that is to be declared.
pub struct NewObject {
    /// The name in lower case.
    pub name: Name,
    /// The symbol, which is that of an anonymous array type too.
    pub symbol: Symbol,
    /// The subtype.
    pub subtype: SubtypeView,
}

impl Drop for NewObject {
    fn drop(self) {
        let NewObject {
            name: _,
            symbol: _,
            subtype: _,
        } = self;
    }
}

/// A copy of the subtype.
/// # Errors
/// `NoMemory` if the allocator refuses memory.
pub fn copied_subtype(alloc: Global, of: &SubtypeView) -> Result<SubtypeView, NoMemory>
    ensures { IfOk result (λ copy. copy ≡ of.now) }
{
    let subtype = of.subtype.copy(alloc)?;
    let types = of.types.share()?;
    let literals = of.literals.share()?;
    Ok(SubtypeView {
        subtype,
        types,
        literals,
    })
}

/// The subtype of an object of an array type of its own, whose symbol is the object's.
fn own_subtype(alloc: Global, symbol: &Symbol, types: Types) -> Result<SubtypeView, NoMemory>
    ensures { IfOk result (λ subtype. subtype ≡ record { subtype = record { base = symbol.now; bounds = None }; types = types; literals = [] }) }
{
    let base = symbol.copy(alloc)?;
    let literals = no_names(alloc)?;
    Ok(SubtypeView {
        subtype: Subtype { base, bounds: None },
        types,
        literals,
    })
}

fn anonymous_subtype(
    alloc: Global,
    standard: &StandardTypes,
    symbol: &Symbol,
    place: Place,
    index: &SubtypeView,
    component: &SubtypeView,
) -> Result<CheckResult<SubtypeView>, NoMemory>
    ensures { IfOk result (λ checked. checked ≡ map_ok (λ types. whole_subtype types (array_view symbol.now index.now component.now)) (array_type symbol.now place index.now component.now)) }
{
    match array_type(alloc, standard, symbol, place, index, component)? {
        Ok(types) => {
            let subtype = own_subtype(alloc, symbol, types)?;
            Ok(Ok(subtype))
        }
        Err(fault) => Ok(Err(fault)),
    }
}

fn subtype_for(
    alloc: Global,
    standard: &StandardTypes,
    symbol: &Symbol,
    place: Place,
    of: &ObjectType,
) -> Result<CheckResult<SubtypeView>, NoMemory>
    ensures { IfOk result (λ checked. checked ≡ subtype_for symbol.now place of.now) }
{
    match of {
        ObjectType::Marked(of) => {
            let copy = copied_subtype(alloc, of)?;
            Ok(Ok(copy))
        }
        ObjectType::AnonymousArray { index, component } => {
            anonymous_subtype(alloc, standard, symbol, place, index, component)
        }
    }
}

fn new_object(
    alloc: Global,
    standard: &StandardTypes,
    progress: &mut Progress,
    of: &ObjectType,
    name: &DefiningName,
) -> Result<CheckResult<NewObject>, NoMemory>
    ensures checked { IfOk result (λ checked. checked ≡ new_object progress.old of.now name.now) }
    ensures counted { OnOk result (progress.new ≡ with_counted progress.old name.now.name) }
{
    let symbol = progress.next_symbol(alloc, name.name.as_slice())?;
    match subtype_for(alloc, standard, &symbol, name.place, of)? {
        Ok(subtype) => {
            let name = Name::from_slice(alloc, name.name.as_slice())?;
            Ok(Ok(NewObject {
                name,
                symbol,
                subtype,
            }))
        }
        Err(fault) => Ok(Err(fault)),
    }
}

/// An object for each name, in order, with its symbol and its subtype. Each object of an anonymous array type has a type of its own (ARM
/// 3.3.1(7)).
/// # Errors
/// `NoMemory` if the allocator refuses memory. The inner error is E305 at the first name if such a type is too large.
pub fn new_objects(
    alloc: Global,
    standard: &StandardTypes,
    progress: &mut Progress,
    of: &ObjectType,
    names: &[DefiningName],
) -> Result<CheckResult<Seq<NewObject>>, NoMemory>
    ensures { IfOk result (λ checked. joined progress.new checked ≡ map_ok (λ os. (with_all_counted progress.old (names_of names.now), os)) (new_objects progress.old of.now names.now)) }
{
    let mut objects = Seq::empty(alloc);
    for name in names {
        let object = match new_object(alloc, standard, progress, of, name)? {
            Ok(object) => object,
            Err(fault) => return Ok(Err(fault)),
        };
        objects.push(object)?;
    }
    Ok(Ok(objects))
}
