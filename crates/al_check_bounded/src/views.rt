// The views in an answer.
ghost use Rattle.std.specs.Prelude.{◌≡◌, ◌++◌, ◌∷◌, [], OnOk, map};
ghost use Rattle.al_check_bounded.specs.Questions.{answer_views};

use al_base::NoMemory;
use al_query::{Answer, AnswerKind, Completion};
use al_view::View;

fn add_each(views: &[View], found: &mut Vec<View>) -> Result<(), NoMemory>
    ensures { OnOk result (found.new.items ≡ found.old.items ++ views.now) }
{
    for view in views {
        let view = view.share()?;
        found.push(view)?;
    }
    Ok(())
}

fn add_completions(completions: &[Completion], found: &mut Vec<View>) -> Result<(), NoMemory>
    ensures { OnOk result (found.new.items ≡ found.old.items ++ map (λ c. c.view) completions.now) }
{
    for completion in completions {
        let view = completion.view.share()?;
        found.push(view)?;
    }
    Ok(())
}

fn add_one(view: &View, found: &mut Vec<View>) -> Result<(), NoMemory>
    ensures { OnOk result (found.new.items ≡ found.old.items ++ view.now ∷ []) }
{
    let view = view.share()?;
    found.push(view)?;
    Ok(())
}

/// Adds the views in an answer.
pub(crate) fn add_views(answer: &Answer, found: &mut Vec<View>) -> Result<(), NoMemory>
    ensures { OnOk result (found.new.items ≡ found.old.items ++ answer_views answer.now) }
{
    match answer.kind() {
        AnswerKind::Views(views) => add_each(views.as_slice(), found),
        AnswerKind::Kind(view) => add_one(view, found),
        AnswerKind::Completions(completions) => add_completions(completions.as_slice(), found),
        AnswerKind::Nothing => Ok(()),
        AnswerKind::Parent(_) => Ok(()),
        AnswerKind::IsPrivate(_) => Ok(()),
        AnswerKind::Context(_) => Ok(()),
        AnswerKind::NeedsBody(_) => Ok(()),
    }
}
