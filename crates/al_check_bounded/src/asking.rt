// Asks each wanted question.
ghost use Rattle.std.specs.Prelude.{◌≡◌, ◌++◌, IfOk, OnOk};
ghost use Rattle.std.specs.List.{flat_map};
ghost use Rattle.al_query.specs.Reads.{FromAnswers};
ghost use Rattle.al_check_bounded.specs.Questions.{answer_views, shown_by};

use crate::queries::wanted_queries;
use crate::views::add_views;
use crate::wanted::Wanted;
use al_base::NoMemory;
use al_query::{Answers, Query, Recorder};
use al_view::{Seq, View};
use std::alloc::Global;

fn ask_one<A: Answers>(
    query: &Query,
    found: &mut Vec<View>,
    recorder: &mut Recorder<A>,
) -> Result<(), NoMemory>
    ensures asked { recorder.new.asked ≡ recorder.old.asked }
    ensures answered { OnOk result (FromAnswers recorder.old.log recorder.new.log (λ t. found.new.items ≡ found.old.items ++ answer_views (t query.now))) }
{
    let answer = recorder.ask(query)?;
    add_views(&answer, found)
}

fn ask_each<A: Answers>(
    queries: &[Query],
    found: &mut Vec<View>,
    recorder: &mut Recorder<A>,
) -> Result<(), NoMemory>
    ensures asked { recorder.new.asked ≡ recorder.old.asked }
    ensures answered { OnOk result (FromAnswers recorder.old.log recorder.new.log (λ t. found.new.items ≡ found.old.items ++ flat_map (λ q. answer_views (t q)) queries.now)) }
{
    for query in queries {
        ask_one(query, found, recorder)?;
    }
    Ok(())
}

/// The views in the answers to all of these questions, each of which is asked.
///
/// # Errors
/// `NoMemory` if the allocator refuses memory.
#[tactic(auto, unfolding(crate::specs::Questions::shown_by))]
pub fn asked_again<A: Answers>(
    alloc: Global,
    wanted: &Wanted,
    recorder: &mut Recorder<A>,
) -> Result<Seq<View>, NoMemory>
    ensures asked { recorder.new.asked ≡ recorder.old.asked }
    ensures answered { IfOk result (λ views. FromAnswers recorder.old.log recorder.new.log (λ t. views ≡ shown_by wanted.now t)) }
{
    let queries = wanted_queries(alloc, wanted)?;
    let mut found = Vec::new(alloc);
    ask_each(queries.as_slice(), &mut found, recorder)?;
    Ok(Seq::new(found))
}
