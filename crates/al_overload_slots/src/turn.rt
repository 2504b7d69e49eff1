// Chains are reversed on the way down and back on the way up, so that they take neither memory nor stack: what is at the left of a link is
// taken out, and the links that were passed before take its place.
ghost use Rattle.std.specs.Prelude.{◌≡◌, false};
ghost use Rattle.al_overload_slots.specs.Temporaries.{unless_value};
ghost use Rattle.al_overload_slots.specs.Turned.{form_leans, form_left_in, form_right_in, form_with_left, form_with_right, has_prefix, left_in, prefix_in, right_in, tree_leans, with_left, with_prefix, with_right};
ghost use Rattle.al_view.specs.declared.view.ObjectPlace.TheVariants.{Frame};
ghost use Rattle.al_view_typed.specs.ExpressionViews.{form_model};
ghost use Rattle.al_view_typed.specs.declared.expression.Form.TheVariants.{Clock};
ghost use Rattle.al_view_typed.specs.declared.expression.TypedName.TheVariants.{Object};

use al_base::Place;
use al_view::ObjectPlace;
use al_view_typed::{ExpressionType, Form, Labels, Typed, TypedName};
use std::mem;

/// Exchanges a name with one in a box.
fn swap_boxed(prefix: &mut Box<TypedName>, other: &mut TypedName)
    ensures prefix { prefix.new ≡ record { ptr = prefix.old.ptr; alloc = prefix.old.alloc; value = other.old } }
    ensures other { other.new ≡ prefix.old.value }
{
    mem::swap(&mut **prefix, other);
}

/// Exchanges what comes before the last component of a name with another name.
fn swap_prefix(name: &mut TypedName, other: &mut TypedName)
    ensures name { name.new ≡ with_prefix name.old other.old }
    ensures other { other.new ≡ prefix_in name.old other.old }
{
    match name {
        TypedName::Object { .. } => {}
        TypedName::Component { whole, .. } => swap_boxed(whole, other),
        TypedName::Indexed { array, .. } => swap_boxed(array, other),
    }
}

/// Whether something comes before the last component of a name.
pub(crate) fn has_prefix(name: &TypedName) -> bool
    ensures { result ≡ has_prefix name.now }
{
    match name {
        TypedName::Object { .. } => false,
        TypedName::Component { .. } => true,
        TypedName::Indexed { .. } => true,
    }
}

/// What is at the end of a reversed chain of components.
pub(crate) fn no_name() -> TypedName
    ensures { result ≡ Object (Frame 0 0) false }
{
    TypedName::Object {
        place: ObjectPlace::Frame { depth: 0, word: 0 },
        is_constant: false,
    }
}

/// A step down: what comes before the last component takes the name's place, and that component goes round what was passed.
pub(crate) fn descend(name: &mut TypedName, passed: &mut TypedName)
    ensures name { name.new ≡ prefix_in name.old passed.old }
    ensures passed { passed.new ≡ with_prefix name.old passed.old }
{
    swap_prefix(name, passed);
    mem::swap(name, passed);
}

/// A step back up a chain of components.
pub(crate) fn ascend(name: &mut TypedName, passed: &mut TypedName)
    ensures name { name.new ≡ with_prefix passed.old name.old }
    ensures passed { passed.new ≡ prefix_in passed.old name.old }
{
    mem::swap(name, passed);
    swap_prefix(name, passed);
}

/// Exchanges an expression with one in a box.
fn swap_operand(operand: &mut Box<Typed>, other: &mut Typed)
    ensures operand { operand.new ≡ record { ptr = operand.old.ptr; alloc = operand.old.alloc; value = other.old } }
    ensures other { other.new ≡ operand.old.value }
{
    mem::swap(&mut **operand, other);
}

/// Exchanges the left operand of a form with another expression.
fn swap_left_of(form: &mut Form, other: &mut Typed)
    ensures form { form.new ≡ form_with_left form.old other.old }
    ensures other { other.new ≡ form_left_in form.old other.old }
{
    match form {
        Form::Binary(_, left, _) => swap_operand(left, other),
        Form::ShortCircuit(_, left, _) => swap_operand(left, other),
        Form::Literal(_) => {}
        Form::Named(_) => {}
        Form::Unary(_, _) => {}
        Form::Membership { .. } => {}
        Form::Converted(_, _) => {}
        Form::Aggregate(_) => {}
        Form::Others(_, _) => {}
        Form::Call(_) => {}
        Form::Clock => {}
    }
}

/// Exchanges the left operand of an expression with another expression.
fn swap_left(typed: &mut Typed, other: &mut Typed)
    ensures typed { typed.new ≡ with_left typed.old other.old }
    ensures other { other.new ≡ left_in typed.old other.old }
{
    swap_left_of(&mut typed.form, other);
}

/// Exchanges the right operand of a form with another expression.
fn swap_right_of(form: &mut Form, other: &mut Typed)
    ensures form { form.new ≡ form_with_right form.old other.old }
    ensures other { other.new ≡ form_right_in form.old other.old }
{
    match form {
        Form::Binary(_, _, right) => swap_operand(right, other),
        Form::ShortCircuit(_, _, right) => swap_operand(right, other),
        Form::Literal(_) => {}
        Form::Named(_) => {}
        Form::Unary(_, _) => {}
        Form::Membership { .. } => {}
        Form::Converted(_, _) => {}
        Form::Aggregate(_) => {}
        Form::Others(_, _) => {}
        Form::Call(_) => {}
        Form::Clock => {}
    }
}

/// Takes the right operand of an expression out, and leaves another one in its place.
pub(crate) fn take_right(typed: &mut Typed, other: &mut Typed)
    ensures typed { typed.new ≡ with_right typed.old other.old }
    ensures other { other.new ≡ right_in typed.old other.old }
{
    swap_right_of(&mut typed.form, other);
}

/// Puts a right operand back in its place.
pub(crate) fn put_right(typed: &mut Typed, right: &mut Typed)
    ensures typed { typed.new ≡ with_right typed.old right.old }
    ensures right { right.new ≡ right_in typed.old right.old }
{
    swap_right_of(&mut typed.form, right);
}

/// Whether a form is computed of two operands.
#[tactic(auto, using(al_view_typed::proofs::ExpressionsMade::literal_made, al_view_typed::proofs::ExpressionsMade::named_made, al_view_typed::proofs::ExpressionsMade::unary_made, al_view_typed::proofs::ExpressionsMade::binary_made, al_view_typed::proofs::ExpressionsMade::converted_made, al_view_typed::proofs::ExpressionsMade::clock_made, al_view_typed::proofs::ExpressionsMade::short_circuit_made, al_view_typed::proofs::ExpressionsMade::membership_made, al_view_typed::proofs::ExpressionsMade::others_made, al_view_typed::proofs::ExpressionsMade::aggregate_made, al_view_typed::proofs::ExpressionsMade::call_form_made))]
pub(crate) fn form_leans(form: &Form) -> bool
    ensures form { result ≡ form_leans form.now }
    ensures tree { result ≡ tree_leans (form_model form.now) }
{
    match form {
        Form::Binary(_, _, _) => true,
        Form::ShortCircuit(_, _, _) => true,
        Form::Literal(_) => false,
        Form::Named(_) => false,
        Form::Unary(_, _) => false,
        Form::Membership { .. } => false,
        Form::Converted(_, _) => false,
        Form::Aggregate(_) => false,
        Form::Others(_, _) => false,
        Form::Call(_) => false,
        Form::Clock => false,
    }
}

/// Whether an expression is computed of two operands.
pub(crate) fn leans(typed: &Typed) -> bool
    ensures { result ≡ unless_value typed.now.labels.value (form_leans typed.now.form) }
{
    if typed.labels.value.is_some() {
        return false;
    }
    form_leans(&typed.form)
}

/// What is at the end of a reversed chain of operators.
pub(crate) fn no_operand() -> Typed
    ensures { result.form ≡ Clock }
{
    let labels = Labels {
        place: Place { line: 1, col: 1 },
        of: ExpressionType::RootInteger,
        bounds: None,
        words: 0,
        value: None,
    };
    let form = Form::Clock;
    Typed { labels, form }
}

/// A step down a chain of operators: the left operand takes the place of the whole, and what is left of that goes round what was passed.
pub(crate) fn descend_operand(typed: &mut Typed, passed: &mut Typed)
    ensures typed { typed.new ≡ left_in typed.old passed.old }
    ensures passed { passed.new ≡ with_left typed.old passed.old }
{
    swap_left(typed, passed);
    mem::swap(typed, passed);
}

/// A step back up a chain of operators.
pub(crate) fn ascend_operand(typed: &mut Typed, passed: &mut Typed)
    ensures typed { typed.new ≡ with_left passed.old typed.old }
    ensures passed { passed.new ≡ left_in passed.old typed.old }
{
    mem::swap(typed, passed);
    swap_left(typed, passed);
}
