// Views in recorded answers.
ghost use Rattle.std.specs.Prelude.{◌≡◌, ◌<◌, ◌++◌, IfOk, OnOk, get_or, length};
ghost use Rattle.al_query.specs.declared.answer.AnswerKind.{AnswerKind};
ghost use Rattle.al_query.specs.declared.query.Query.{Query};
ghost use Rattle.al_check_bounded.specs.Questions.{AreShown, recorded_views, shown_in};

use crate::views::add_views;
use crate::wanted::Wanted;
use al_base::NoMemory;
use al_query::{Answer, Query, ReadLog};
use al_view::{Seq, View};
use std::alloc::Global;

/// Adds the views in a recorded answer, if its question is wanted.
fn add_entry(
    wanted: &Wanted,
    query: &Query,
    answer: &Answer,
    found: &mut Vec<View>,
) -> Result<(), NoMemory>
    ensures { OnOk result (found.new.items ≡ found.old.items ++ shown_in wanted.now (query.now, answer.now)) }
{
    if wanted.is_wanted(query) {
        add_views(answer, found)
    } else {
        Ok(())
    }
}

/// Adds the views in the `i`-th recorded answer, from 0, if its question is wanted.
fn add_at(wanted: &Wanted, log: &ReadLog, i: usize, found: &mut Vec<View>) -> Result<(), NoMemory>
    requires { i < length log.now }
    ensures { OnOk result ((e : Query × AnswerKind) → found.new.items ≡ found.old.items ++ shown_in wanted.now (get_or log.now i e)) }
{
    match log.at(i) {
        Some((query, answer)) => add_entry(wanted, query, answer, found),
        None => Ok(()),
    }
}

fn add_log(wanted: &Wanted, log: &ReadLog, found: &mut Vec<View>) -> Result<(), NoMemory>
    ensures { OnOk result (found.new.items ≡ found.old.items ++ recorded_views wanted.now log.now) }
{
    for i in 0..log.len() {
        add_at(wanted, log, i, found)?;
    }
    Ok(())
}

/// The views in the recorded answers to wanted questions. Every table that agrees with the log shows them too.
///
/// # Errors
/// `NoMemory` if the allocator refuses memory.
pub fn recorded_views(alloc: Global, wanted: &Wanted, log: &ReadLog) -> Result<Seq<View>, NoMemory>
    ensures { IfOk result (AreShown wanted.now log.now) }
{
    let mut found = Vec::new(alloc);
    add_log(wanted, log, &mut found)?;
    Ok(Seq::new(found))
}
