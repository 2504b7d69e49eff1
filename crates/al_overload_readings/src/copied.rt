// Copies of subprograms and subtypes.
ghost use Rattle.std.specs.Prelude.{◌≡◌, IfOk};

use al_base::{Name, NoMemory};
use al_view::{
    CallKind, ObjectPlace, Parameter, Profile, Seq, SubprogramView, Subtype, SubtypeView,
};
use std::alloc::Global;

/// A copy of a subtype.
/// # Errors
/// `NoMemory` if the allocator refuses memory.
pub fn copied_mark(alloc: Global, mark: &SubtypeView) -> Result<SubtypeView, NoMemory>
    ensures { IfOk result (λ copy. copy ≡ mark.now) }
{
    let subtype = mark.subtype.copy(alloc)?;
    let types = mark.types.share()?;
    let literals = mark.literals.share()?;
    Ok(SubtypeView {
        subtype,
        types,
        literals,
    })
}

fn copied_parameter(alloc: Global, parameter: &Parameter) -> Result<Parameter, NoMemory>
    ensures { IfOk result (λ copy. copy ≡ parameter.now) }
{
    let name = Name::from_slice(alloc, parameter.name.as_slice())?;
    let subtype = parameter.subtype.copy(alloc)?;
    Ok(Parameter {
        name,
        mode: parameter.mode,
        subtype,
    })
}

fn copied_parameters(alloc: Global, parameters: &[Parameter]) -> Result<Seq<Parameter>, NoMemory>
    ensures { IfOk result (λ copy. copy ≡ parameters.now) }
{
    let mut copy = Seq::empty(alloc);
    for parameter in parameters {
        copy.push(copied_parameter(alloc, parameter)?)?;
    }
    Ok(copy)
}

fn copied_result(alloc: Global, of: &Option<Subtype>) -> Result<Option<Subtype>, NoMemory>
    ensures { IfOk result (λ copy. copy ≡ of.now) }
{
    match of {
        Some(subtype) => {
            let copy = subtype.copy(alloc)?;
            Ok(Some(copy))
        }
        None => Ok(None),
    }
}

fn copied_call(alloc: Global, call: &CallKind) -> Result<CallKind, NoMemory>
    ensures { IfOk result (λ copy. copy ≡ call.now) }
{
    match call {
        CallKind::Operator { of_type } => {
            let of_type = of_type.copy(alloc)?;
            Ok(CallKind::Operator { of_type })
        }
        CallKind::Subprogram { depth } => Ok(CallKind::Subprogram { depth: *depth }),
        CallKind::Predefined => Ok(CallKind::Predefined),
        CallKind::Protected => Ok(CallKind::Protected),
        CallKind::Entry => Ok(CallKind::Entry),
    }
}

fn copied_flag(alloc: Global, flag: &Option<ObjectPlace>) -> Result<Option<ObjectPlace>, NoMemory>
    ensures { IfOk result (λ copy. copy ≡ flag.now) }
{
    match flag {
        Some(place) => {
            let copy = place.copy(alloc)?;
            Ok(Some(copy))
        }
        None => Ok(None),
    }
}

fn copied_profile(alloc: Global, of: &Profile) -> Result<Profile, NoMemory>
    ensures { IfOk result (λ copy. copy ≡ of.now) }
{
    let parameters = copied_parameters(alloc, of.parameters.as_slice())?;
    let returned = copied_result(alloc, &of.result)?;
    Ok(Profile {
        parameters,
        result: returned,
    })
}

/// A copy of how a subprogram is called, and of its flag.
fn copied_way(
    alloc: Global,
    of: &SubprogramView,
) -> Result<(CallKind, Option<ObjectPlace>), NoMemory>
    ensures { IfOk result (λ copy. copy ≡ (of.now.call, of.now.flag)) }
{
    let call = copied_call(alloc, &of.call)?;
    let flag = copied_flag(alloc, &of.flag)?;
    Ok((call, flag))
}

/// A copy of a subprogram.
/// # Errors
/// `NoMemory` if the allocator refuses memory.
pub fn copied_subprogram(
    alloc: Global,
    subprogram: &SubprogramView,
) -> Result<SubprogramView, NoMemory>
    ensures { IfOk result (λ copy. copy ≡ subprogram.now) }
{
    let symbol = subprogram.symbol.copy(alloc)?;
    let profile = copied_profile(alloc, &subprogram.profile)?;
    let types = subprogram.types.share()?;
    let (call, flag) = copied_way(alloc, subprogram)?;
    Ok(SubprogramView {
        symbol,
        profile,
        types,
        call,
        flag,
    })
}
