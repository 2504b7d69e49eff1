// Answers that are the same for all values of a type.
use al_query::Answers;

/// Answers that are the same for all values of a type, so that what depends on them depends only on types.
pub trait FixedAnswers: Answers {
    ghost use Rattle.std.specs.Prelude.{◌≡◌};
    ghost use Rattle.al_query.specs.declared.query.Query.{Query};
    ghost use Rattle.al_query.specs.declared.answer.AnswerKind.{AnswerKind};

    /// The answers.
    ghost answers: { Query → AnswerKind };

    // Every value gives these answers.
    ghost alike: { (one : Self) → Self.table one ≡ answers };
}
