// The log of a recorder.
ghost use Rattle.std.specs.Prelude.{◌≡◌, [], ◌∷◌, ◌++◌, None, is_ok, length, if◌then◌else◌};
ghost use Rattle.std.specs.Option.{option_copied};
ghost use Rattle.al_query.specs.Reads.{recorded};

use crate::answer::Answer;
use crate::query::Query;
use al_base::NoMemory;
use std::alloc::Global;
use std::collections::HashMap;
use std::marker::Model;

/// Each question that was asked, once, with its answer, in the order of asking. A question is found without a walk.
pub(crate) struct IndexedLog {
    answers: Vec<(Query, Answer)>,
    /// The place of each question among the answers.
    places: HashMap<Query, usize>,
}

impl Drop for IndexedLog {
    fn drop(self) {
        let IndexedLog {
            answers: _,
            places: _,
        } = self;
    }
}

impl Model for IndexedLog {
    ghost use Rattle.std.specs.Prelude.{List};
    ghost use Rattle.al_query.specs.declared.query.Query.{Query};
    ghost use Rattle.al_query.specs.declared.answer.AnswerKind.{AnswerKind};
    ghost use Rattle.al_query.specs.Places.{AreIndexed};

    ghost Value = { List (Query × AnswerKind) };

    ghost view = { λ l. l.answers.items };

    ghost invariant = { λ l. AreIndexed l.answers.items l.places.entries };
}

impl IndexedLog {
    /// A log without questions. It takes no memory.
    pub(crate) fn new(alloc: Global) -> Self
        ensures { result ≡ [] }
    {
        IndexedLog {
            answers: Vec::new(alloc),
            places: HashMap::new(alloc),
        }
    }

    /// How many questions were asked.
    pub(crate) fn len(&self) -> usize
        ensures { result ≡ length self.now }
    {
        self.answers.len()
    }

    /// The recorded answer to a question.
    pub(crate) fn find(&self, query: &Query) -> Option<&Answer>
        ensures { option_copied result ≡ recorded self.now query.now }
    {
        let at = self.places.get(query)?;
        let (_, answer) = self.answers.get(*at)?;
        Some(answer)
    }

    /// Appends a question that the log lacks.
    pub(crate) fn push(
        &mut self,
        alloc: Global,
        query: Query,
        answer: Answer,
    ) -> Result<(), NoMemory>
        requires { recorded self.old query ≡ None }
        ensures { self.new ≡ (if is_ok result then self.old ++ (query, answer) ∷ [] else self.old) }
    {
        let at = self.len();
        self.answers.reserve(1)?;
        self.places.insert(query.copy(alloc)?, at)?;
        self.answers.push((query, answer))?;
        Ok(())
    }

    /// The questions with their answers. It takes no memory.
    pub(crate) fn into_answers(self) -> Vec<(Query, Answer)>
        ensures { result.items ≡ self }
    {
        let IndexedLog { answers, places: _ } = self;
        answers
    }
}
