// What a specification specifies (ARM 6.1(20)).
ghost use Rattle.std.specs.Prelude.{◌≡◌, ◌++◌, ◌∷◌, [], IfOk, OnOk, map};
ghost use Rattle.std.specs.List.{filter_map};
ghost use Rattle.al_decl_judged.specs.TypeLists.{joined};
ghost use Rattle.al_decl_judged.specs.Profiles.{formal_of, formal_types, parameter_of, profile_of, profile_types, result_of, returned_of, returned_types, specification_of, subtype_in, types_in};

use crate::heading::{FormalPart, Heading, ReturnedPart};
use crate::{Formal, Returned, Specification, add_types};
use al_base::{Name, NoMemory};
use al_base_fault::CheckResult;
use al_view::{Parameter, Profile, Seq, Subtype, SubtypeView, TypeView, Types};
use al_view_predefined::StandardTypes;
use std::alloc::Global;

fn subtype_in(alloc: Global, of: &CheckResult<SubtypeView>) -> Result<Option<Subtype>, NoMemory>
    ensures { IfOk result (λ subtype. subtype ≡ subtype_in of.now) }
{
    match of {
        Ok(of) => {
            let subtype = of.subtype.copy(alloc)?;
            Ok(Some(subtype))
        }
        Err(_) => Ok(None),
    }
}

fn formal_of(alloc: Global, formal: &FormalPart) -> Result<Formal, NoMemory>
    ensures { IfOk result (λ made. made ≡ formal_of formal.now) }
{
    let name = Name::from_slice(alloc, formal.name.name.as_slice())?;
    let subtype = subtype_in(alloc, &formal.of)?;
    Ok(Formal {
        name,
        mode: formal.mode,
        subtype,
    })
}

fn formals_of(alloc: Global, formals: &[FormalPart]) -> Result<Seq<Formal>, NoMemory>
    ensures { IfOk result (λ made. made ≡ map formal_of formals.now) }
{
    let mut made = Seq::empty(alloc);
    for formal in formals {
        made.push(formal_of(alloc, formal)?)?;
    }
    Ok(made)
}

fn returned_of(alloc: Global, returned: &ReturnedPart) -> Result<Returned, NoMemory>
    ensures { IfOk result (λ made. made ≡ returned_of returned.now) }
{
    match returned {
        ReturnedPart::NoValue => Ok(Returned::NoValue),
        ReturnedPart::Value(of) => {
            let subtype = subtype_in(alloc, of)?;
            Ok(Returned::Value(subtype))
        }
    }
}

/// A specification in the form in which it is compared with others: marks that have faults have no subtype.
/// # Errors
/// `NoMemory` if the allocator refuses memory.
pub fn specification_of(alloc: Global, heading: &Heading) -> Result<Specification, NoMemory>
    ensures { IfOk result (λ specification. specification ≡ specification_of heading.now) }
{
    let formals = formals_of(alloc, heading.formals.as_slice())?;
    let returned = returned_of(alloc, &heading.returned)?;
    Ok(Specification { formals, returned })
}

fn parameter_of(alloc: Global, formal: &FormalPart) -> Result<Option<Parameter>, NoMemory>
    ensures { IfOk result (λ made. made ≡ parameter_of formal.now) }
{
    match subtype_in(alloc, &formal.of)? {
        Some(subtype) => {
            let name = Name::from_slice(alloc, formal.name.name.as_slice())?;
            Ok(Some(Parameter {
                name,
                mode: formal.mode,
                subtype,
            }))
        }
        None => Ok(None),
    }
}

/// Adds the parameter of a formal whose mark is right.
fn add_parameter(
    alloc: Global,
    made: &mut Seq<Parameter>,
    formal: &FormalPart,
) -> Result<(), NoMemory>
    ensures { OnOk result (made.new ≡ made.old ++ filter_map parameter_of (formal.now ∷ [])) }
{
    match parameter_of(alloc, formal)? {
        Some(parameter) => {
            made.push(parameter)?;
            Ok(())
        }
        None => Ok(()),
    }
}

fn parameters_of(alloc: Global, formals: &[FormalPart]) -> Result<Seq<Parameter>, NoMemory>
    ensures { IfOk result (λ made. made ≡ filter_map parameter_of formals.now) }
{
    let mut made = Seq::empty(alloc);
    for formal in formals {
        add_parameter(alloc, &mut made, formal)?;
    }
    Ok(made)
}

fn result_of(alloc: Global, returned: &ReturnedPart) -> Result<Option<Subtype>, NoMemory>
    ensures { IfOk result (λ made. made ≡ result_of returned.now) }
{
    match returned {
        ReturnedPart::NoValue => Ok(None),
        ReturnedPart::Value(of) => subtype_in(alloc, of),
    }
}

/// The profile of a specification whose marks are right.
/// # Errors
/// `NoMemory` if the allocator refuses memory.
pub fn profile_of(alloc: Global, heading: &Heading) -> Result<Profile, NoMemory>
    ensures { IfOk result (λ profile. profile ≡ profile_of heading.now) }
{
    let parameters = parameters_of(alloc, heading.formals.as_slice())?;
    let of = result_of(alloc, &heading.returned)?;
    Ok(Profile {
        parameters,
        result: of,
    })
}

/// Adds the types of a mark.
fn add_types_in(
    alloc: Global,
    standard: &StandardTypes,
    types: &mut Seq<TypeView>,
    of: &CheckResult<SubtypeView>,
) -> Result<(), NoMemory>
    ensures { OnOk result (types.new ≡ joined types.old (types_in of.now)) }
{
    match of {
        Ok(of) => add_types(alloc, standard, types, of.types.as_slice()),
        Err(_) => Ok(()),
    }
}

fn formal_types(
    alloc: Global,
    standard: &StandardTypes,
    formals: &[FormalPart],
) -> Result<Seq<TypeView>, NoMemory>
    ensures { IfOk result (λ types. types ≡ formal_types formals.now) }
{
    let mut types = Seq::empty(alloc);
    for formal in formals {
        add_types_in(alloc, standard, &mut types, &formal.of)?;
    }
    Ok(types)
}

/// The types of the parameters and of the result, each once, and those of Standard left out.
/// # Errors
/// `NoMemory` if the allocator refuses memory.
pub fn profile_types(
    alloc: Global,
    standard: &StandardTypes,
    heading: &Heading,
) -> Result<Types, NoMemory>
    ensures { IfOk result (λ types. types ≡ profile_types heading.now) }
{
    let mut types = formal_types(alloc, standard, heading.formals.as_slice())?;
    match &heading.returned {
        ReturnedPart::NoValue => {}
        ReturnedPart::Value(of) => add_types_in(alloc, standard, &mut types, of)?,
    }
    let types = Types::new(alloc, types)?;
    Ok(types)
}
