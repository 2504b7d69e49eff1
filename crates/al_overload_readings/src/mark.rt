// Names of types and subtypes (ARM 3.2.2).
ghost use Rattle.std.specs.Prelude.{◌≡◌, IfOk};
ghost use Rattle.al_overload_readings.specs.Marks.{mark_in, mark_of, marked_by};

use crate::copied::copied_mark;
use al_base::NoMemory;
use al_view::{DeclaredType, Subtype, SubtypeView, View, ViewKind};
use std::alloc::Global;

/// The subtype of all values of a type, which is the last of the types that it is made of.
#[tactic(auto, unfolding(crate::specs::Marks::marked_by))]
fn marked_by(alloc: Global, declared: &DeclaredType) -> Result<Option<SubtypeView>, NoMemory>
    ensures { IfOk result (λ mark. mark ≡ marked_by declared.now) }
{
    match declared.types.as_slice().last() {
        Some(of) => {
            let base = of.symbol.copy(alloc)?;
            let bounds = of.definition.bounds();
            let types = declared.types.share()?;
            let literals = declared.literals.share()?;
            Ok(Some(SubtypeView {
                subtype: Subtype { base, bounds },
                types,
                literals,
            }))
        }
        None => Ok(None),
    }
}

/// The subtype that a declaration gives a name, if it declares a type or a subtype.
#[tactic(auto, unfolding(crate::specs::Marks::mark_of))]
fn mark_of(alloc: Global, view: &View) -> Result<Option<SubtypeView>, NoMemory>
    ensures { IfOk result (λ mark. mark ≡ mark_of view.now) }
{
    match view.kind() {
        ViewKind::OfType(declared) => marked_by(alloc, declared),
        ViewKind::OfSubtype(mark) => {
            let mark = copied_mark(alloc, mark)?;
            Ok(Some(mark))
        }
        ViewKind::OfObject(_) => Ok(None),
        ViewKind::OfComponent => Ok(None),
        ViewKind::OfNumber(_) => Ok(None),
        ViewKind::OfLiteral(_) => Ok(None),
        ViewKind::OfSubprogram(_) => Ok(None),
        ViewKind::OfTask(_) => Ok(None),
        ViewKind::OfProtected(_) => Ok(None),
        ViewKind::OfPackage(_) => Ok(None),
    }
}

/// The subtype that is all that is visible under a name.
/// # Errors
/// `NoMemory` if the allocator refuses memory.
pub fn mark_in(alloc: Global, views: &[View]) -> Result<Option<SubtypeView>, NoMemory>
    ensures { IfOk result (λ mark. mark ≡ mark_in views.now) }
{
    match views {
        [] => Ok(None),
        [view] => mark_of(alloc, view),
        [_, _, ..] => Ok(None),
    }
}
