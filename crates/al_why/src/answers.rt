// Answers, as they are printed.
ghost use Rattle.std.specs.Prelude.{◌≡◌, ◌++◌, OnOk, map};
ghost use Rattle.al_why.specs.Answers.{answer_words, completion_words, listed, truth_word, unit_words};
ghost use Rattle.al_why.specs.Views.{view_words};

use crate::pieces::add;
use crate::views::add_view;
use al_base::{NoMemory, UnitKey};
use al_query::{Answer, AnswerKind, Completion};
use al_view::View;

/// Adds what is answered: `nothing` if there is no answer, or one without any name.
pub(crate) fn add_answer(text: &mut Vec<u8>, answer: &Answer) -> Result<(), NoMemory>
    ensures { OnOk result (text.new.items ≡ text.old.items ++ answer_words answer.now) }
{
    match answer.kind() {
        AnswerKind::Nothing => add(text, b"nothing"),
        AnswerKind::Views(views) => add_views(text, views.as_slice()),
        AnswerKind::Kind(view) => add_view(text, view),
        AnswerKind::Parent(None) => add(text, b"nothing"),
        AnswerKind::Parent(Some(unit)) => add(text, unit.name.as_slice()),
        AnswerKind::IsPrivate(is) => add(text, truth_word(*is)),
        AnswerKind::Context(context) => add_units(text, context.withs.as_slice()),
        AnswerKind::NeedsBody(needs) => add(text, truth_word(*needs)),
        AnswerKind::Completions(all) => add_completions(text, all.as_slice()),
    }
}

fn truth_word(is: bool) -> &'static [u8]
    ensures { result.now ≡ truth_word is }
{
    if is { b"yes" } else { b"no" }
}

// Adds these declarations, with commas between them.
fn add_views(text: &mut Vec<u8>, views: &[View]) -> Result<(), NoMemory>
    ensures { OnOk result (text.new.items ≡ text.old.items ++ listed (map view_words views.now)) }
{
    let Some((first, rest)) = views.split_first() else {
        return add(text, b"nothing");
    };
    add_view(text, first)?;
    for view in rest {
        add(text, b", ")?;
        add_view(text, view)?;
    }
    Ok(())
}

// Adds the names of these units, with commas between them.
fn add_units(text: &mut Vec<u8>, units: &[UnitKey]) -> Result<(), NoMemory>
    ensures { OnOk result (text.new.items ≡ text.old.items ++ listed (map unit_words units.now)) }
{
    let Some((first, rest)) = units.split_first() else {
        return add(text, b"nothing");
    };
    add(text, first.name.as_slice())?;
    for unit in rest {
        add(text, b", ")?;
        add(text, unit.name.as_slice())?;
    }
    Ok(())
}

// Adds the names of these declarations, with commas between them.
fn add_completions(text: &mut Vec<u8>, all: &[Completion]) -> Result<(), NoMemory>
    ensures { OnOk result (text.new.items ≡ text.old.items ++ listed (map completion_words all.now)) }
{
    let Some((first, rest)) = all.split_first() else {
        return add(text, b"nothing");
    };
    add(text, first.name.as_slice())?;
    for one in rest {
        add(text, b", ")?;
        add(text, one.name.as_slice())?;
    }
    Ok(())
}
