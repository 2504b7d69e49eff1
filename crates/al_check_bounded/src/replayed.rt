// Questions that were asked within bounds, asked again of a recorder.
ghost use Rattle.std.specs.Prelude.{◌≡◌, IfOk, OnOk};
ghost use Rattle.al_query.specs.Asked.{AsksOf};
ghost use Rattle.al_query.specs.Reads.{Agrees, FromAnswers};
ghost use Rattle.al_query_outcome.specs.ReadsLaw.{AsksOthers};
ghost use Rattle.al_check_bounded.specs.Bounding.{allowed, bounded};

use crate::bounds::Bounds;
use al_base::NoMemory;
use al_query::{Answer, Answers, Query, ReadLog, Recorder};
use al_query_outcome::no_answer;
use std::alloc::Global;

/// The answer within the bounds. A question that may not be asked has the answer of a unit that doesn't exist.
///
/// # Errors
/// `NoMemory` if the allocator refuses memory.
pub fn answer_within<A: Answers>(
    alloc: Global,
    bounds: &Bounds,
    query: &Query,
    recorder: &mut Recorder<A>,
) -> Result<Answer, NoMemory>
    ensures asked { recorder.new.asked ≡ recorder.old.asked }
    ensures answered { IfOk result (λ answer. FromAnswers recorder.old.log recorder.new.log (λ t. answer ≡ bounded bounds.now t query.now)) }
    ensures asks { OnOk result (AsksOf bounds.now.known (allowed bounds.now) recorder.old.log recorder.new.log) }
    ensures others { OnOk result (AsksOthers bounds.now.unit recorder.old.log → AsksOthers bounds.now.unit recorder.new.log) }
{
    if bounds.may_ask(query) {
        let answer = recorder.ask(query)?;
        return Ok(answer);
    }
    no_answer(alloc, query)
}

/// Asks the question, if it may be asked.
fn ask_if_allowed<A: Answers>(
    bounds: &Bounds,
    query: &Query,
    recorder: &mut Recorder<A>,
) -> Result<(), NoMemory>
    ensures asked { recorder.new.asked ≡ recorder.old.asked }
    ensures answered { OnOk result (FromAnswers recorder.old.log recorder.new.log (λ t. bounded bounds.now t query.now ≡ bounded bounds.now (A.table recorder.old.asked) query.now)) }
    ensures asks { OnOk result (AsksOf bounds.now.known (allowed bounds.now) recorder.old.log recorder.new.log) }
    ensures others { OnOk result (AsksOthers bounds.now.unit recorder.old.log → AsksOthers bounds.now.unit recorder.new.log) }
{
    if bounds.may_ask(query) {
        let answer = recorder.ask(query)?;
        drop(answer);
    }
    Ok(())
}

/// Asks the recorder each question of the log that may be asked. Then every table that agrees with the recorder's log agrees, within the bounds,
/// with this log.
///
/// # Errors
/// `NoMemory` if the allocator refuses memory.
pub fn replay<A: Answers>(
    bounds: &Bounds,
    log: &ReadLog,
    recorder: &mut Recorder<A>,
) -> Result<(), NoMemory>
    requires { Agrees (bounded bounds.now (A.table recorder.old.asked)) log.now }
    ensures asked { recorder.new.asked ≡ recorder.old.asked }
    ensures answered { OnOk result (FromAnswers recorder.old.log recorder.new.log (λ t. Agrees (bounded bounds.now t) log.now)) }
    ensures asks { OnOk result (AsksOf bounds.now.known (allowed bounds.now) recorder.old.log recorder.new.log) }
    ensures others { OnOk result (AsksOthers bounds.now.unit recorder.old.log → AsksOthers bounds.now.unit recorder.new.log) }
{
    for i in 0..log.len() {
        if let Some((query, _answer)) = log.at(i) {
            ask_if_allowed(bounds, query, recorder)?;
        }
    }
    Ok(())
}
