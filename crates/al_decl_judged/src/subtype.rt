// Declarations of subtypes (ARM 3.2.2).
ghost use Rattle.std.specs.Prelude.{◌≡◌, ◌∷◌, [], IfOk};
ghost use Rattle.al_decl_judged.specs.TypeDeclarations.{declared_as};
ghost use Rattle.al_base_fault.specs.Judging.{map_ok};
ghost use Rattle.al_decl_judged.specs.Declaring.{declared_model, declares, joined};
ghost use Rattle.al_decl_judged.specs.Subtypes.{subtype_declared};

use crate::declared::Declared;
use crate::names::DefiningName;
use crate::progress::Progress;
use crate::{Declaration, subtype_view};
use al_base::{Name, NoMemory};
use al_base_fault::{CheckResult, Fault, unless};
use al_view::{Seq, SubtypeView, View};
use std::alloc::Global;

/// One declaration, which does nothing at its place.
pub(crate) fn declares_one(alloc: Global, name: &[u8], view: View) -> Result<Declared, NoMemory>
    ensures { IfOk result (λ declared. declared_model declared ≡ declares (declared_as name.now view ∷ [])) }
{
    let name = Name::from_slice(alloc, name)?;
    let mut declarations = Seq::empty(alloc);
    declarations.push(Declaration { name, view })?;
    Ok(Declared {
        declarations,
        effect: None,
    })
}

/// A name for a subtype. `duplicate` is E301 at the name if its region has a homograph.
/// # Errors
/// `NoMemory` if the allocator refuses memory. The inner error is the first of `duplicate` and the fault of the subtype.
pub fn declare_subtype(
    alloc: Global,
    progress: &mut Progress,
    name: &DefiningName,
    duplicate: Option<Fault>,
    of: CheckResult<SubtypeView>,
) -> Result<CheckResult<Declared>, NoMemory>
    ensures { IfOk result (λ checked. joined progress.new (map_ok declared_model checked) ≡ subtype_declared progress.old name.now duplicate of) }
{
    let of = match unless(duplicate, of) {
        Ok(of) => of,
        Err(fault) => return Ok(Err(fault)),
    };
    progress.count(name.name.as_slice())?;
    let view = subtype_view(alloc, of)?;
    let declared = declares_one(alloc, name.name.as_slice(), view)?;
    Ok(Ok(declared))
}
