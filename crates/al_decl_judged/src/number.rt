// Number declarations (ARM 3.3.2).
ghost use Rattle.std.specs.Prelude.{◌≡◌, IfOk};
ghost use Rattle.al_decl_judged.specs.TypeObjects.{number_view};
ghost use Rattle.al_decl_judged.specs.TypeDeclarations.{declared_as};
ghost use Rattle.al_base_fault.specs.Judging.{map_ok};
ghost use Rattle.al_decl_judged.specs.Declaring.{declared_model, joined};
ghost use Rattle.al_decl_judged.specs.Numbers.{number_declarations, numbers_declared};

use crate::declared::Declared;
use crate::names::{DefiningName, count_all, repeated};
use crate::progress::Progress;
use crate::{Declaration, number_view};
use al_base::{Name, NoMemory};
use al_base_fault::{CheckResult, Fault, earlier, unless};
use al_view::{Seq, StaticValue};
use std::alloc::Global;

fn number_declaration(
    alloc: Global,
    value: StaticValue,
    name: &DefiningName,
) -> Result<Declaration, NoMemory>
    ensures { IfOk result (λ declared. declared ≡ declared_as name.now.name (number_view value)) }
{
    let view = number_view(alloc, value)?;
    let name = Name::from_slice(alloc, name.name.as_slice())?;
    Ok(Declaration { name, view })
}

fn number_declarations(
    alloc: Global,
    value: StaticValue,
    names: &[DefiningName],
) -> Result<Seq<Declaration>, NoMemory>
    ensures { IfOk result (λ declared. declared ≡ number_declarations value names.now) }
{
    let mut declarations = Seq::empty(alloc);
    for name in names {
        declarations.push(number_declaration(alloc, value, name)?)?;
    }
    Ok(declarations)
}

/// Names for a static value of an integer type. `duplicate` is E301 at the first of them whose region has a homograph.
/// # Errors
/// `NoMemory` if the allocator refuses memory. The inner error is the first of `duplicate`, E301 at a name that is there twice, and the
/// fault of the value.
pub fn declare_numbers(
    alloc: Global,
    progress: &mut Progress,
    names: &[DefiningName],
    duplicate: Option<Fault>,
    value: CheckResult<StaticValue>,
) -> Result<CheckResult<Declared>, NoMemory>
    ensures { IfOk result (λ checked. joined progress.new (map_ok declared_model checked) ≡ numbers_declared progress.old names.now duplicate value) }
{
    let twice = repeated(alloc, names)?;
    let value = match unless(earlier(duplicate, twice), value) {
        Ok(value) => value,
        Err(fault) => return Ok(Err(fault)),
    };
    count_all(progress, names)?;
    let declarations = number_declarations(alloc, value, names)?;
    Ok(Ok(Declared {
        declarations,
        effect: None,
    }))
}
