// Names of objects by their labelling (ARM 4.1.3(13), 8.6).
ghost use Rattle.std.specs.Prelude.{◌≡◌, IfOk, None, false, option_map};
ghost use Rattle.std.specs.Option.{option_copied, option_map_or};
ghost use Rattle.al_overload.specs.Counts.{label_of};
ghost use Rattle.al_overload.specs.Parts.{declared_under, nominal};
ghost use Rattle.al_overload_nodes.specs.Variables.{component_part, is_variable_object, object_of, or_nothing_fits, part_as, part_under, picked_object, target_part, target_part_of, variable_as, variable_under, whole_part};
ghost use Rattle.al_overload.specs.TermViews.{term_model};

use crate::meaning::interpret;
use crate::{Labeller, is_variable};
use al_base::NoMemory;
use al_base_fault::CheckResult;
use al_overload::{
    Context, Labelled, Nominal, Term, declared_under, first_place, how_indexed, nothing_fits,
    number_in, part_of, pick,
};
use al_view::{ObjectView, Subtype, Types, View, ViewKind};
use al_view_predefined::StandardTypes;

fn object_of(kind: &ViewKind) -> Option<&ObjectView>
    ensures { option_copied result ≡ object_of kind.now }
{
    match kind {
        ViewKind::OfObject(object) => Some(object),
        ViewKind::OfNumber(_) => None,
        ViewKind::OfLiteral(_) => None,
        ViewKind::OfSubprogram(_) => None,
        ViewKind::OfComponent => None,
        ViewKind::OfType(_) => None,
        ViewKind::OfSubtype(_) => None,
        ViewKind::OfTask(_) => None,
        ViewKind::OfProtected(_) => None,
        ViewKind::OfPackage(_) => None,
    }
}

/// The object that the candidate of a name means.
fn picked_object<'a>(
    standard: &StandardTypes,
    visible: &'a [View],
    label: &Labelled,
) -> Option<&'a ObjectView>
    ensures { option_copied result ≡ picked_object visible.now (label_of label.now) }
{
    match pick(standard, number_in(label), visible) {
        Some((kind, _)) => object_of(kind),
        None => None,
    }
}

fn is_variable_object(object: Option<&ObjectView>) -> bool
    ensures { result ≡ is_variable_object (option_copied object.entry) }
{
    match object {
        Some(object) => !object.is_constant,
        None => false,
    }
}

/// Whether what is indexed is a variable.
fn variable_under(standard: &StandardTypes, prefix: &Term, label: &Labelled) -> bool
    ensures { result ≡ variable_under (term_model prefix.now) (declared_under (term_model prefix.now)) (label_of label.now) }
{
    match declared_under(prefix) {
        Some(visible) => is_variable_object(picked_object(standard, visible, label)),
        None => is_variable(prefix),
    }
}

/// Whether a term with its labelling names a variable or a part of one (ARM 3.3(13)).
#[tactic(auto, using(crate::proofs::TermsSeen::terms_made))]
pub(crate) fn variable_as(standard: &StandardTypes, term: &Term, label: &Labelled) -> bool
    ensures { result ≡ variable_as (term_model term.now) (label_of label.now) }
{
    match term {
        Term::Named { place: _, views } => {
            is_variable_object(picked_object(standard, views.as_slice(), label))
        }
        Term::Applied { name, arguments: _ } => variable_under(standard, name, label),
        Term::Selected { prefix, name: _ } => is_variable(prefix),
        Term::Number { .. } => false,
        Term::Text { .. } => false,
        Term::Bound { .. } => false,
        Term::Length { .. } => false,
        Term::Conversion { .. } => false,
        Term::Qualified { .. } => false,
        Term::Attribute { .. } => false,
        Term::Image { .. } => false,
        Term::Prefixed { .. } => false,
        Term::Infix { .. } => false,
        Term::Concatenation { .. } => false,
        Term::ShortCircuit { .. } => false,
        Term::Member { .. } => false,
        Term::RangeMember { .. } => false,
        Term::Group { .. } => false,
        Term::Aggregate { .. } => false,
        Term::Others { .. } => false,
        Term::Nothing { .. } => false,
    }
}

/// Whether an argument with its labelling names a variable.
pub(crate) fn variable_at(labeller: &Labeller, argument: &Term, label: Option<&Labelled>) -> bool
    ensures { result ≡ option_map_or (variable_as (term_model argument.now)) (option_map (λ l. label_of l.now) label.entry) false }
{
    match label {
        Some(label) => variable_as(&labeller.predefined.standard, argument, label),
        None => false,
    }
}

/// A copy of a nominal subtype.
/// # Errors
/// `NoMemory` if the allocator refuses memory.
pub fn nominal(labeller: &Labeller, subtype: &Subtype, types: &Types) -> Result<Nominal, NoMemory>
    ensures { IfOk result (λ of. of ≡ nominal types.now subtype.now) }
{
    let types = types.share()?;
    let subtype = subtype.copy(labeller.alloc)?;
    Ok(Nominal { subtype, types })
}

fn whole_part(labeller: &Labeller, object: Option<&ObjectView>) -> Result<Option<Nominal>, NoMemory>
    ensures { IfOk result (λ part. part ≡ option_map whole_part (option_copied object.entry)) }
{
    match object {
        Some(object) => {
            let part = nominal(labeller, &object.subtype, &object.types)?;
            Ok(Some(part))
        }
        None => Ok(None),
    }
}

/// A component of an array.
fn component_part(labeller: &Labeller, object: &ObjectView) -> Result<Option<Nominal>, NoMemory>
    ensures { IfOk result (λ part. part ≡ component_part object.now) }
{
    let standard = &labeller.predefined.standard;
    match how_indexed(standard, &object.types, &object.subtype.base) {
        Some(by) => {
            let part = nominal(labeller, by.component, &object.types)?;
            Ok(Some(part))
        }
        None => Ok(None),
    }
}

fn part_under(
    labeller: &Labeller,
    visible: Option<&[View]>,
    label: &Labelled,
) -> Result<Option<Nominal>, NoMemory>
    ensures { IfOk result (λ part. part ≡ part_under (option_map (λ v. v.now) visible.entry) (label_of label.now)) }
{
    let Some(visible) = visible else {
        return Ok(None);
    };
    match picked_object(&labeller.predefined.standard, visible, label) {
        Some(object) => component_part(labeller, object),
        None => Ok(None),
    }
}

/// The nominal subtype of a name of several objects, or of a component of one.
#[tactic(auto, using(crate::proofs::TermsSeen::terms_made))]
fn part_as(labeller: &Labeller, term: &Term, label: &Labelled) -> Result<Option<Nominal>, NoMemory>
    ensures { IfOk result (λ part. part ≡ part_as (term_model term.now) (label_of label.now)) }
{
    let standard = &labeller.predefined.standard;
    match term {
        Term::Named { place: _, views } => {
            whole_part(labeller, picked_object(standard, views.as_slice(), label))
        }
        Term::Applied { name, arguments: _ } => part_under(labeller, declared_under(name), label),
        Term::Selected { .. } => Ok(None),
        Term::Number { .. } => Ok(None),
        Term::Text { .. } => Ok(None),
        Term::Bound { .. } => Ok(None),
        Term::Length { .. } => Ok(None),
        Term::Conversion { .. } => Ok(None),
        Term::Qualified { .. } => Ok(None),
        Term::Attribute { .. } => Ok(None),
        Term::Image { .. } => Ok(None),
        Term::Prefixed { .. } => Ok(None),
        Term::Infix { .. } => Ok(None),
        Term::Concatenation { .. } => Ok(None),
        Term::ShortCircuit { .. } => Ok(None),
        Term::Member { .. } => Ok(None),
        Term::RangeMember { .. } => Ok(None),
        Term::Group { .. } => Ok(None),
        Term::Aggregate { .. } => Ok(None),
        Term::Others { .. } => Ok(None),
        Term::Nothing { .. } => Ok(None),
    }
}

fn or_nothing_fits(term: &Term, of: Option<Nominal>) -> CheckResult<Nominal>
    ensures { result ≡ or_nothing_fits (term_model term.now) of }
{
    match of {
        Some(of) => Ok(of),
        None => Err(nothing_fits(first_place(term))),
    }
}

/// The nominal subtype of a target that is a name of several objects.
fn picked_part(labeller: &Labeller, term: &Term) -> Result<CheckResult<Nominal>, NoMemory>
    ensures { IfOk result (λ checked. checked ≡ target_part_of labeller.now.predefined (term_model term.now) None) }
{
    match interpret(labeller, Context::Target, term)? {
        Ok(label) => {
            let of = part_as(labeller, term, &label);
            drop(label);
            Ok(or_nothing_fits(term, of?))
        }
        Err(fault) => Ok(Err(fault)),
    }
}

/// The nominal subtype of the target of an assignment (ARM 5.2).
/// # Errors
/// `NoMemory` if the allocator refuses memory. The inner error is E402 at the first token of what is no object or part of one.
#[tactic(auto, unfolding(crate::specs::Variables::target_part))]
pub fn target_part(labeller: &Labeller, term: &Term) -> Result<CheckResult<Nominal>, NoMemory>
    ensures { IfOk result (λ checked. checked ≡ target_part labeller.now.predefined (term_model term.now)) }
{
    match part_of(&labeller.predefined.standard, term) {
        Some((subtype, types)) => {
            let of = nominal(labeller, subtype, types)?;
            Ok(Ok(of))
        }
        None => picked_part(labeller, term),
    }
}
