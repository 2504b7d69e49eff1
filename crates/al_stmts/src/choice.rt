// What an alternative of a case statement chooses.
ghost use Rattle.std.specs.Prelude.{◌≡◌, ◌↔◌, IsTrue};
ghost use Rattle.std.specs.List.{list_all, list_any};
ghost use Rattle.al_stmts.specs.Choosing.{covered_by, has_others, is_of_type, is_others, OthersIsAloneAndLast};

use al_view::{Bounds, Seq};

/// A choice of a case statement (ARM 3.8.1(5), 5.4(3)).
#[derive(Clone, Copy)]
pub enum Choice {
    /// The values of a range; if it is one value, both bounds are that value.
    Range(Bounds),
    /// A mark of another type than the selector's.
    OfOtherType,
    /// All values that no other choice has.
    Others,
}

/// What the choices are compared with.
#[derive(Clone, Copy)]
pub enum Selector {
    /// The bounds of its nominal subtype, if the selector is the name of an object, a call, a conversion or a qualified expression and that
    /// subtype is static (ARM 5.4(7)).
    OfSubtype(Bounds),
    /// The bounds of its whole type, for any other selector (ARM 5.4(8, 9)).
    OfType(Bounds),
}

impl Selector {
    /// The range whose values are to be covered.
    pub(crate) fn covered(self) -> Bounds
        ensures { result ≡ covered_by self }
    {
        match self {
            Selector::OfSubtype(bounds) => bounds,
            Selector::OfType(bounds) => bounds,
        }
    }
}

fn is_others(choice: &Choice) -> bool
    ensures { result ≡ is_others choice.now }
{
    matches!(choice, Choice::Others)
}

fn is_of_type(choice: &Choice) -> bool
    ensures { result ≡ is_of_type choice.now }
{
    !matches!(choice, Choice::OfOtherType)
}

fn has_others(choices: &[Choice]) -> bool
    ensures { result ≡ has_others choices.now }
{
    choices.iter().any(is_others)
}

fn is_all_of_type(choices: &[Choice]) -> bool
    ensures { result ≡ list_all is_of_type choices.now }
{
    choices.iter().all(is_of_type)
}

/// Whether some alternative has `others`.
pub(crate) fn have_others(alternatives: &[Seq<Choice>]) -> bool
    ensures { result ≡ list_any has_others alternatives.now }
{
    alternatives
        .iter()
        .any(|choices| has_others(choices.as_slice()))
}

/// Whether no mark is of another type.
pub(crate) fn are_of_type(alternatives: &[Seq<Choice>]) -> bool
    ensures { result ≡ list_all (list_all is_of_type) alternatives.now }
{
    alternatives
        .iter()
        .all(|choices| is_all_of_type(choices.as_slice()))
}

/// Whether `others` is alone and last.
pub(crate) fn is_others_in_place(alternatives: &[Seq<Choice>]) -> bool
    ensures { IsTrue result ↔ OthersIsAloneAndLast alternatives.now }
{
    for i in 0..alternatives.len() {
        let choices = alternatives[i].as_slice();
        if has_others(choices) && (choices.len() != 1 || i + 1 != alternatives.len()) {
            return false;
        }
    }
    true
}
