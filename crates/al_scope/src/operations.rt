// Subprograms whose types are seen otherwise.
ghost use Rattle.std.specs.Prelude.{◌≡◌, map, option_map, IfOk};
ghost use Rattle.al_scope.specs.Recasts.{is_operator, recast_operation, recast_parameter, recast_profile, recast_subprogram, recast_subtype};

use crate::recast::{Recast, recast_subtype};
use crate::types::recast_types;
use al_base::{Name, NoMemory};
use al_view::{CallKind, ObjectPlace, Operation, Parameter, Profile, Seq, SubprogramView, Subtype};
use std::alloc::Global;

fn copied_call(alloc: Global, call: &CallKind) -> Result<CallKind, NoMemory>
    ensures { IfOk result (λ copy. copy ≡ call.now) }
{
    match call {
        CallKind::Operator { of_type } => {
            let of_type = of_type.copy(alloc)?;
            Ok(CallKind::Operator { of_type })
        }
        CallKind::Subprogram { depth } => Ok(CallKind::Subprogram { depth: *depth }),
        CallKind::Predefined => Ok(CallKind::Predefined),
        CallKind::Protected => Ok(CallKind::Protected),
        CallKind::Entry => Ok(CallKind::Entry),
    }
}

fn copied_flag(alloc: Global, flag: &Option<ObjectPlace>) -> Result<Option<ObjectPlace>, NoMemory>
    ensures { IfOk result (λ copy. copy ≡ flag.now) }
{
    match flag {
        Some(place) => Ok(Some(place.copy(alloc)?)),
        None => Ok(None),
    }
}

fn is_operator(call: &CallKind) -> bool
    ensures { result ≡ is_operator call.now }
{
    match call {
        CallKind::Operator { .. } => true,
        CallKind::Subprogram { .. } => false,
        CallKind::Predefined => false,
        CallKind::Protected => false,
        CallKind::Entry => false,
    }
}

fn recast_parameter(
    alloc: Global,
    recasts: &[Recast],
    of: &Parameter,
) -> Result<Parameter, NoMemory>
    ensures { IfOk result (λ made. made ≡ recast_parameter recasts.now of.now) }
{
    let name = Name::from_slice(alloc, of.name.as_slice())?;
    let subtype = recast_subtype(alloc, recasts, &of.subtype)?;
    Ok(Parameter {
        name,
        mode: of.mode,
        subtype,
    })
}

fn recast_parameters(
    alloc: Global,
    recasts: &[Recast],
    of: &[Parameter],
) -> Result<Seq<Parameter>, NoMemory>
    ensures { IfOk result (λ made. made ≡ map (recast_parameter recasts.now) of.now) }
{
    let mut made = Seq::empty(alloc);
    for parameter in of {
        made.push(recast_parameter(alloc, recasts, parameter)?)?;
    }
    Ok(made)
}

fn recast_result(
    alloc: Global,
    recasts: &[Recast],
    of: &Option<Subtype>,
) -> Result<Option<Subtype>, NoMemory>
    ensures { IfOk result (λ made. made ≡ option_map (recast_subtype recasts.now) of.now) }
{
    match of {
        Some(of) => Ok(Some(recast_subtype(alloc, recasts, of)?)),
        None => Ok(None),
    }
}

fn recast_each(alloc: Global, recasts: &[Recast], of: &Profile) -> Result<Profile, NoMemory>
    ensures { IfOk result (λ made. made ≡ record { parameters = map (recast_parameter recasts.now) of.now.parameters; result = option_map (recast_subtype recasts.now) of.now.result }) }
{
    let parameters = recast_parameters(alloc, recasts, of.parameters.as_slice())?;
    let returned = recast_result(alloc, recasts, &of.result)?;
    Ok(Profile {
        parameters,
        result: returned,
    })
}

/// The operands and the result of an operator are of the type without bounds.
fn recast_profile(
    alloc: Global,
    recasts: &[Recast],
    call: &CallKind,
    of: &Profile,
) -> Result<Profile, NoMemory>
    ensures { IfOk result (λ made. made ≡ recast_profile recasts.now call.now of.now) }
{
    if is_operator(call) {
        return recast_each(alloc, &[], of);
    }
    recast_each(alloc, recasts, of)
}

/// How a subprogram is called, and its flag.
fn copied_way(
    alloc: Global,
    of: &SubprogramView,
) -> Result<(CallKind, Option<ObjectPlace>), NoMemory>
    ensures { IfOk result (λ copy. copy ≡ (of.now.call, of.now.flag)) }
{
    let call = copied_call(alloc, &of.call)?;
    let flag = copied_flag(alloc, &of.flag)?;
    Ok((call, flag))
}

pub(crate) fn recast_subprogram(
    alloc: Global,
    recasts: &[Recast],
    of: &SubprogramView,
) -> Result<SubprogramView, NoMemory>
    ensures { IfOk result (λ made. made ≡ recast_subprogram recasts.now of.now) }
{
    let symbol = of.symbol.copy(alloc)?;
    let profile = recast_profile(alloc, recasts, &of.call, &of.profile)?;
    let types = recast_types(alloc, recasts, &of.types)?;
    let (call, flag) = copied_way(alloc, of)?;
    Ok(SubprogramView {
        symbol,
        profile,
        types,
        call,
        flag,
    })
}

fn recast_operation(
    alloc: Global,
    recasts: &[Recast],
    of: &Operation,
) -> Result<Operation, NoMemory>
    ensures { IfOk result (λ made. made ≡ recast_operation recasts.now of.now) }
{
    let name = Name::from_slice(alloc, of.name.as_slice())?;
    let subprogram = recast_subprogram(alloc, recasts, &of.subprogram)?;
    Ok(Operation { name, subprogram })
}

pub(crate) fn recast_operations(
    alloc: Global,
    recasts: &[Recast],
    of: &[Operation],
) -> Result<Seq<Operation>, NoMemory>
    ensures { IfOk result (λ made. made ≡ map (recast_operation recasts.now) of.now) }
{
    let mut made = Seq::empty(alloc);
    for operation in of {
        made.push(recast_operation(alloc, recasts, operation)?)?;
    }
    Ok(made)
}
