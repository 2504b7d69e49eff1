// The target of an assignment (ARM 5.2).
ghost use Rattle.std.specs.Prelude.{◌≡◌, Some, option_map};
ghost use Rattle.al_base_fault.specs.declared.check_rule.CheckRule.TheVariants.{NotAVariable};
ghost use Rattle.al_base_fault.specs.Faults.{fault_at};
ghost use Rattle.al_base_fault.specs.Judging.{map_ok};
ghost use Rattle.al_view_typed.specs.ExpressionViews.{form_model, name_model, typed_model};
ghost use Rattle.al_stmts.specs.Simple.{is_variable, target_named, target_of, target_model};

use al_base::Place;
use al_base_fault::{CheckResult, CheckRule, Fault};
use al_view::Bounds;
use al_view_typed::{Labels, Typed, TypedName};

/// A variable that is assigned to.
#[derive(Drop)]
pub struct Target {
    /// The name.
    pub name: TypedName,
    /// How many words it has.
    pub words: u32,
    /// The range of its nominal subtype, if that is scalar.
    pub bounds: Option<Bounds>,
}

/// Whether a name denotes a variable: an object that is no constant, or a part of one.
#[tactic(auto, using(al_view_typed::proofs::ExpressionsMade::object_made, al_view_typed::proofs::ExpressionsMade::component_made, al_view_typed::proofs::ExpressionsMade::indexed_made))]
fn is_variable(name: &TypedName) -> bool
    ensures { result ≡ is_variable (name_model name.now) }
{
    let mut rest = name;
    loop {
        rest = match rest {
            TypedName::Object { is_constant, .. } => return !*is_constant,
            TypedName::Component { whole, .. } => whole,
            TypedName::Indexed { array, .. } => array,
        };
    }
}

/// E406 at the first token of what is no variable.
fn no_variable(place: Place) -> Fault
    ensures { result ≡ fault_at place NotAVariable }
{
    let rule = CheckRule::NotAVariable;
    Fault { place, rule }
}

/// A name as a target.
fn variable(labels: Labels, name: TypedName) -> CheckResult<Target>
    ensures { map_ok target_model result ≡ target_named labels (Some (name_model name)) }
{
    if is_variable(&name) {
        return Ok(Target {
            name,
            words: labels.words,
            bounds: labels.bounds,
        });
    }
    Err(no_variable(labels.place))
}

/// A name as a target, if it is one.
fn named(labels: Labels, name: Option<TypedName>) -> CheckResult<Target>
    ensures { map_ok target_model result ≡ target_named labels (option_map name_model name) }
{
    match name {
        None => Err(no_variable(labels.place)),
        Some(name) => variable(labels, name),
    }
}

/// What is on the left of an assignment (ARM 5.2(5)).
/// # Errors
/// E406 at its first token if it is no variable.
#[tactic(auto, using(crate::proofs::Layers::typed_layers))]
pub fn target_of(found: Typed) -> CheckResult<Target>
    ensures { map_ok target_model result ≡ target_of (typed_model found) }
{
    let Typed { labels, form } = found;
    named(labels, form.into_name())
}
