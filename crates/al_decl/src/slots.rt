// The words of temporaries in what a declaration does.
ghost use Rattle.std.specs.Prelude.{◌≡◌, map, option_map};
ghost use Rattle.al_decl.specs.Effects.{after_effect, component_numbered, components_after, components_numbered, effect_after, effect_numbered, form_after, form_numbered, optional_after};
ghost use Rattle.al_overload_slots.specs.Slots.{value_after, value_numbered};
ghost use Rattle.al_view_typed.specs.DeclarationTrees.{component_value_model, declaration_model, form_model};
ghost use Rattle.al_view_typed.specs.ExpressionViews.{value_model};

use al_decl_judged::Progress;
use al_overload_slots::number_slots;
use al_view_typed::{CheckedValue, ComponentValue, DeclarationForm, TypedDeclaration};

/// The temporaries of a value take words from this one on. The result is the next word after them.
#[tactic(auto, using(al_overload_slots::proofs::Layers::value_layers, al_view_typed::proofs::ExpressionsMade::value_made))]
fn number_value(value: &mut CheckedValue, word: u32) -> u32
    ensures tree { value_model value.new ≡ value_numbered word (value_model value.old) }
    ensures word { result ≡ value_after word (value_model value.old) }
{
    number_slots(&mut value.value, word)
}

fn number_optional(value: &mut Option<CheckedValue>, word: u32) -> u32
    ensures tree { option_map value_model value.new ≡ option_map (value_numbered word) (option_map value_model value.old) }
    ensures word { result ≡ optional_after word (option_map value_model value.old) }
{
    match value {
        Some(value) => number_value(value, word),
        None => word,
    }
}

fn number_component(component: &mut ComponentValue, word: u32) -> u32
    ensures tree { component_value_model component.new ≡ component_numbered word (component_value_model component.old) }
    ensures word { result ≡ value_after word (component_value_model component.old).value }
{
    number_value(&mut component.value, word)
}

/// The temporaries of the values of components take their words, one declaration after the other.
fn number_components(values: &mut Vec<ComponentValue>, word: u32) -> u32
    ensures tree { map component_value_model values.new.items ≡ components_numbered word (map component_value_model values.old.items) }
    ensures word { result ≡ components_after word (map component_value_model values.old.items) }
{
    let mut after = word;
    for value in values.iter_mut() {
        after = number_component(value, after);
    }
    after
}

fn number_form(form: &mut DeclarationForm, word: u32) -> u32
    ensures tree { form_model form.new ≡ form_numbered word (form_model form.old) }
    ensures word { result ≡ form_after word (form_model form.old) }
{
    match form {
        DeclarationForm::Objects { value, .. } => number_optional(value, word),
        DeclarationForm::Subprogram(_) => word,
        DeclarationForm::Elaborated(_) => word,
        DeclarationForm::Task { .. } => word,
        DeclarationForm::Protected { values, .. } => number_components(values, word),
    }
}

fn number_effect(effect: &mut Option<TypedDeclaration>, word: u32) -> u32
    ensures tree { option_map declaration_model effect.new ≡ effect_numbered word (option_map declaration_model effect.old) }
    ensures word { result ≡ effect_after word (option_map declaration_model effect.old) }
{
    match effect {
        Some(done) => number_form(&mut done.form, word),
        None => word,
    }
}

/// The temporaries of what a declaration does take their words of the innermost frame.
pub(crate) fn take_slots(progress: &mut Progress, effect: &mut Option<TypedDeclaration>)
    ensures tree { option_map declaration_model effect.new ≡ effect_numbered progress.old.words.frame (option_map declaration_model effect.old) }
    ensures taken { progress.new ≡ after_effect progress.old (option_map declaration_model effect.old) }
{
    progress.words.frame = number_effect(effect, progress.words.frame);
}
