// Conformance of specifications.
ghost use Rattle.std.specs.Prelude.{◌≡◌, ◌↔◌, IsTrue, Some, None, MatchOption};
ghost use Rattle.std.specs.Option.{option_copied};
ghost use Rattle.al_base_fault.specs.declared.check_rule.CheckRule.TheVariants.{NotConformant};
ghost use Rattle.al_base_fault.specs.Faults.{fault_at};
ghost use Rattle.al_decl_judged.specs.Conformance.{Conforms, EachWith, FormalConforms, FormalIsOf, HasTypesOf, MarkConforms, MarkIsOf, ReturnedConforms, ReturnedIsOf};

use crate::specification::{Formal, Returned, Specification};
use al_base::Place;
use al_base_fault::{CheckRule, Fault};
use al_view::{Parameter, Profile, Same, Subtype};

fn mark_conforms(mark: &Option<Subtype>, subtype: &Subtype) -> bool
    ensures { IsTrue result ↔ MarkConforms mark.now subtype.now }
{
    match mark {
        Some(mark) => mark.is_same(subtype),
        None => true,
    }
}

fn formal_conforms(formal: &Formal, parameter: &Parameter) -> bool
    ensures { IsTrue result ↔ FormalConforms formal.now parameter.now }
{
    formal.name.is_same(&parameter.name)
        && formal.mode.is_same(&parameter.mode)
        && mark_conforms(&formal.subtype, &parameter.subtype)
}

fn formals_conform(formals: &[Formal], parameters: &[Parameter]) -> bool
    ensures { IsTrue result ↔ EachWith FormalConforms formals.now parameters.now }
{
    if formals.len() != parameters.len() {
        return false;
    }
    for i in 0..formals.len() {
        if !formal_conforms(&formals[i], &parameters[i]) {
            return false;
        }
    }
    true
}

fn returned_conforms(returned: &Returned, subtype: &Option<Subtype>) -> bool
    ensures { IsTrue result ↔ ReturnedConforms returned.now subtype.now }
{
    match (returned, subtype) {
        (Returned::NoValue, None) => true,
        (Returned::Value(mark), Some(subtype)) => mark_conforms(mark, subtype),
        _ => false,
    }
}

/// Whether a specification conforms to a profile (ARM 6.3.1): the same kind, number, names, modes and subtypes. Marks that have
/// faults of their own aren't compared.
pub fn conforms(specification: &Specification, profile: &Profile) -> bool
    ensures { IsTrue result ↔ Conforms specification.now profile.now }
{
    formals_conform(
        specification.formals.as_slice(),
        profile.parameters.as_slice(),
    ) && returned_conforms(&specification.returned, &profile.result)
}

/// E303 at the defining name of a completion that doesn't conform to a declaration with that profile.
pub fn conformance_fault(
    place: Place,
    specification: &Specification,
    profile: &Profile,
) -> Option<Fault>
    ensures { MatchOption result (Conforms specification.now profile.now) (λ fault. (Conforms specification.now profile.now → ⊥) × (fault ≡ fault_at place NotConformant)) }
{
    if conforms(specification, profile) {
        return None;
    }
    let rule = CheckRule::NotConformant;
    Some(Fault { place, rule })
}

fn mark_is_of(mark: &Option<Subtype>, subtype: &Subtype) -> bool
    ensures { IsTrue result ↔ MarkIsOf mark.now subtype.now }
{
    match mark {
        Some(mark) => mark.base.is_same(&subtype.base),
        None => false,
    }
}

fn formals_are_of(formals: &[Formal], parameters: &[Parameter]) -> bool
    ensures { IsTrue result ↔ EachWith FormalIsOf formals.now parameters.now }
{
    if formals.len() != parameters.len() {
        return false;
    }
    for i in 0..formals.len() {
        if !mark_is_of(&formals[i].subtype, &parameters[i].subtype) {
            return false;
        }
    }
    true
}

fn returned_is_of(returned: &Returned, subtype: &Option<Subtype>) -> bool
    ensures { IsTrue result ↔ ReturnedIsOf returned.now subtype.now }
{
    match (returned, subtype) {
        (Returned::NoValue, None) => true,
        (Returned::Value(mark), Some(subtype)) => mark_is_of(mark, subtype),
        _ => false,
    }
}

/// Whether a specification has the parameter and result types of a profile.
pub fn has_types_of(specification: &Specification, profile: &Profile) -> bool
    ensures { IsTrue result ↔ HasTypesOf specification.now profile.now }
{
    formals_are_of(
        specification.formals.as_slice(),
        profile.parameters.as_slice(),
    ) && returned_is_of(&specification.returned, &profile.result)
}
