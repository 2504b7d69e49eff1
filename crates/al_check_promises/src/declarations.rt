// The links that declarations use.
ghost use Rattle.std.specs.Prelude.{◌≡◌, map};
ghost use Rattle.std.specs.List.{flat_map, list_all};
ghost use Rattle.al_view.specs.ViewUses.{place_uses};
ghost use Rattle.al_view.specs.declared.link.LinkKind.TheVariants.{Data};
ghost use Rattle.al_view_typed.specs.DeclarationTrees.{component_value_model, declaration_model, form_model};
ghost use Rattle.al_view_typed.specs.Uses.{declaration_form_uses, declarations_uses, value_uses};

use crate::expressions::{some_value_passes, value_passes};
use crate::test::LinkTest;
use crate::views::place_passes;
use al_view::{LinkKind, ObjectPlace};
use al_view_typed::{ComponentValue, DeclarationForm, TypedDeclaration};

fn places_pass<T: LinkTest>(places: &[ObjectPlace], test: &T) -> bool
    ensures { result ≡ list_all (T.passing test.now) (flat_map (place_uses Data) places.now) }
{
    for place in places {
        if !place_passes(LinkKind::Data, place, test) {
            return false;
        }
    }
    true
}

fn components_pass<T: LinkTest>(values: &[ComponentValue], test: &T) -> bool
    ensures { result ≡ list_all (T.passing test.now) (flat_map (λ v. value_uses v.value) (map component_value_model values.now)) }
{
    for value in values {
        if !value_passes(&value.value, test) {
            return false;
        }
    }
    true
}

fn form_passes<T: LinkTest>(form: &DeclarationForm, test: &T) -> bool
    ensures { result ≡ list_all (T.passing test.now) (declaration_form_uses (form_model form.now)) }
{
    match form {
        DeclarationForm::Objects {
            places,
            words: _,
            value,
        } => places_pass(places.as_slice(), test) && some_value_passes(value, test),
        DeclarationForm::Subprogram(flag) => place_passes(LinkKind::Flag, flag, test),
        DeclarationForm::Elaborated(flag) => place_passes(LinkKind::Flag, flag, test),
        DeclarationForm::Task {
            symbol,
            priority: _,
        } => test.passes(LinkKind::Code, symbol),
        DeclarationForm::Protected { symbol, values } => {
            test.passes(LinkKind::Data, symbol) && components_pass(values.as_slice(), test)
        }
    }
}

/// Whether all links that these declarations use pass the test.
pub(crate) fn declarations_pass<T: LinkTest>(declarations: &[TypedDeclaration], test: &T) -> bool
    ensures { result ≡ list_all (T.passing test.now) (declarations_uses (map declaration_model declarations.now)) }
{
    for declaration in declarations {
        if !form_passes(&declaration.form, test) {
            return false;
        }
    }
    true
}
