// Whether two answers are the same.
ghost use Rattle.std.specs.Prelude.{◌≡◌, ◌↔◌, IsTrue};

use crate::answer::{Answer, AnswerKind, Completion, ContextView, UnitForm, UseClause, UseInPart};
use al_view::Same;

impl Same for UnitForm {
    fn is_same(&self, other: &UnitForm) -> bool {
        match (self, other) {
            (UnitForm::Package, UnitForm::Package) => true,
            (UnitForm::Procedure, UnitForm::Procedure) => true,
            (UnitForm::Function, UnitForm::Function) => true,
            _ => false,
        }
    }
}

impl Same for UseClause {
    fn is_same(&self, other: &UseClause) -> bool {
        match (self, other) {
            (UseClause::Package(unit), UseClause::Package(other)) => unit.is_same(other),
            (UseClause::Type(symbol), UseClause::Type(other)) => symbol.is_same(other),
            (
                UseClause::Operators { of_type, types },
                UseClause::Operators {
                    of_type: other,
                    types: others,
                },
            ) => of_type.is_same(other) && types.is_same(others),
            _ => false,
        }
    }
}

impl Same for UseInPart {
    fn is_same(&self, other: &UseInPart) -> bool {
        self.part.is_same(&other.part)
            && self.clause.is_same(&other.clause)
            && self.before.is_same(&other.before)
    }
}

impl Same for ContextView {
    fn is_same(&self, other: &ContextView) -> bool {
        self.withs.is_same(&other.withs)
            && self.uses.is_same(&other.uses)
            && self.uses_inside.is_same(&other.uses_inside)
            && self.private_types.is_same(&other.private_types)
    }
}

impl Same for Completion {
    fn is_same(&self, other: &Completion) -> bool {
        self.name.is_same(&other.name) && self.view.is_same(&other.view)
    }
}

impl Same for AnswerKind {
    fn is_same(&self, other: &AnswerKind) -> bool {
        match (self, other) {
            (AnswerKind::Nothing, AnswerKind::Nothing) => true,
            (AnswerKind::Views(views), AnswerKind::Views(other)) => views.is_same(other),
            (AnswerKind::Kind(view), AnswerKind::Kind(other)) => view.is_same(other),
            (AnswerKind::Parent(parent), AnswerKind::Parent(other)) => parent.is_same(other),
            (AnswerKind::IsPrivate(b), AnswerKind::IsPrivate(other)) => *b == *other,
            (AnswerKind::Context(context), AnswerKind::Context(other)) => context.is_same(other),
            (AnswerKind::NeedsBody(b), AnswerKind::NeedsBody(other)) => *b == *other,
            (AnswerKind::Completions(list), AnswerKind::Completions(other)) => list.is_same(other),
            _ => false,
        }
    }
}

impl Same for Answer {
    fn is_same(&self, other: &Answer) -> bool {
        self.kind().is_same(other.kind())
    }
}
