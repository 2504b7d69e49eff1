// The recorder of questions.
ghost use Rattle.std.specs.Prelude.{◌≡◌, [], IfOk, OnErr, is_ok, length, slice_get};
ghost use Rattle.std.specs.Option.{option_map};
ghost use Rattle.al_base.specs.declared.unit_key.UnitKey.{UnitKey};
ghost use Rattle.al_base_shortage.specs.Counts.{counted};
ghost use Rattle.al_query.specs.declared.query.Query.{Query};
ghost use Rattle.al_query.specs.declared.answer.AnswerKind.{AnswerKind};
ghost use Rattle.al_query.specs.Answers.{names_told};
ghost use Rattle.al_query.specs.Known.{Learns};
ghost use Rattle.al_query.specs.Reads.{Agrees, Agrees-prop, FromAnswers, logged};
ghost use Rattle.al_query.specs.AnsweredNames.{AreTold};

use crate::answer::Answer;
use crate::indexed_log::IndexedLog;
use crate::query::Query;
use al_base::NoMemory;
use al_base_shortage::AllocFailures;
use std::alloc::Global;
use std::marker::Model;

/// Who can be asked. What it answers is a table.
pub trait Answers {
    ghost use Rattle.al_query.specs.declared.query.Query.{Query};
    ghost use Rattle.al_query.specs.declared.answer.AnswerKind.{AnswerKind};

    ghost table: { Self → Query → AnswerKind };

    /// The answer to a question.
    ///
    /// # Errors
    ///
    /// `NoMemory` if the allocator refuses memory.
    fn ask(&self, query: &Query) -> Result<Answer, NoMemory>
        ensures { IfOk result (λ answer. answer ≡ table self.now query.now) };
}

/// Each question that was asked, once, with its answer, in the order of asking.
pub struct ReadLog {
    answers: Vec<(Query, Answer)>,
}

impl Drop for ReadLog {
    fn drop(self) {
        let ReadLog { answers: _ } = self;
    }
}

impl Model for ReadLog {
    ghost use Rattle.std.specs.Prelude.{List};
    ghost use Rattle.al_query.specs.declared.query.Query.{Query};
    ghost use Rattle.al_query.specs.declared.answer.AnswerKind.{AnswerKind};

    ghost Value = { List (Query × AnswerKind) };

    ghost view = { λ l. l.answers.items };
}

impl ReadLog {
    /// A log without questions. It takes no memory.
    pub fn new(alloc: Global) -> Self
        ensures { result ≡ [] }
    {
        ReadLog {
            answers: Vec::new(alloc),
        }
    }

    /// How many questions were asked.
    pub fn len(&self) -> usize
        ensures { result ≡ length self.now }
    {
        self.answers.len()
    }

    /// The i-th question that was asked, from 0, with its answer.
    pub fn at(&self, i: usize) -> Option<(&Query, &Answer)>
        ensures { option_map (λ read. (read.0.now, read.1.now)) result ≡ slice_get self.now i }
    {
        let (query, answer) = self.answers.get(i)?;
        Some((query, answer))
    }
}

/// Asks, and keeps what was asked. Each call that fails for memory is counted.
pub struct Recorder<A: Answers> {
    alloc: Global,
    asked: A,
    log: IndexedLog,
    failures: AllocFailures,
}

impl<A: Answers + Drop> Drop for Recorder<A> {
    fn drop(self) {
        let Recorder {
            alloc: _,
            asked: _,
            log: _,
            failures: _,
        } = self;
    }
}

impl<A: Answers> Model for Recorder<A> {
    ghost use Rattle.al_query.specs.Recording.{Recording};

    ghost Value = { Recording A };

    ghost use Rattle.al_query.specs.Reads.{Agrees};

    ghost view = { λ r. record { asked = r.asked; log = r.log; failures = r.failures } };

    ghost invariant = { λ r. Agrees (A.table r.asked) r.log };
}

impl<A: Answers> Recorder<A> {
    /// A recorder that was asked nothing. It takes no memory.
    pub fn new(alloc: Global, asked: A) -> Self
        ensures asked { result.asked ≡ asked }
        ensures log { result.log ≡ [] }
        ensures failures { result.failures ≡ 0 }
    {
        Recorder {
            alloc,
            asked,
            log: IndexedLog::new(alloc),
            failures: AllocFailures::new(),
        }
    }

    /// The answer to a question. It is recorded if the log lacks the question, also if it is empty. Every table that agrees with
    /// the log from now on gives this answer.
    ///
    /// # Errors
    ///
    /// `NoMemory` if the allocator refuses memory. The log is then unchanged, and the count of failures is one higher, which it is
    /// in no other case.
    pub fn ask(&mut self, query: &Query) -> Result<Answer, NoMemory>
        ensures asked { self.new.asked ≡ self.old.asked }
        ensures answer { IfOk result (λ answer. answer ≡ A.table self.old.asked query.now) }
        ensures log { IfOk result (λ answer. self.new.log ≡ logged self.old.log query.now answer) }
        ensures answered { IfOk result (λ answer. FromAnswers self.old.log self.new.log (λ t. t query.now ≡ answer)) }
        ensures learns { IfOk result (λ answer. Learns self.old.log self.new.log query.now answer) }
        ensures tells { IfOk result (λ answer. AreTold self.new.log (names_told answer)) }
        ensures err { OnErr result (self.new.log ≡ self.old.log) }
        ensures failures { self.new.failures ≡ counted (is_ok result) self.old.failures }
    {
        if let Some(answer) = self.log.find(query) {
            let answer = self.failures.of(answer.share())?;
            return Ok(answer);
        }
        let answer = self.failures.of(self.asked.ask(query))?;
        let kept = self.failures.of(answer.share())?;
        let query = self.failures.of(query.copy(self.alloc))?;
        self.failures.of(self.log.push(self.alloc, query, kept))?;
        Ok(answer)
    }

    /// Who is asked agrees with what was asked so far: each recorded answer is still the one that is given.
    pub fn agrees(&self)
        ensures { Agrees (A.table self.now.asked) self.now.log }
    {
        let _log = &self.log;
    }

    /// Who is asked.
    pub fn source(&self) -> &A
        ensures { result.now ≡ self.now.asked }
    {
        &self.asked
    }

    /// What was asked. It takes no memory.
    pub fn into_log(self) -> ReadLog
    where
        A: Drop,
        ensures log { result ≡ self.log }
        ensures agrees { Agrees (A.table self.asked) result }
    {
        let Recorder {
            alloc: _,
            asked,
            log,
            failures: _,
        } = self;
        drop(asked);
        ReadLog {
            answers: log.into_answers(),
        }
    }
}
