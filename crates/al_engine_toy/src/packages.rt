// The predefined units of the small language.
ghost use Rattle.std.specs.Prelude.{◌≡◌, IfOk};
ghost use Rattle.al_engine_refresh.specs.Settings.{ArePredefined};
ghost use Rattle.al_engine_toy.specs.Outcomes.{own_symbol, predefined_answer};
ghost use Rattle.al_query.specs.declared.answer.AnswerKind.TheVariants as answers;
ghost use Rattle.al_view.specs.declared.view.ViewKind.TheVariants.{OfPackage};

use crate::outcomes::own_view;
use al_base::NoMemory;
use al_query::{Answer, AnswerKind, Answers, Property, Query};
use al_query_outcome::no_answer;
use std::alloc::Global;

/// The predefined units: packages that declare nothing.
#[derive(Drop)]
pub struct Packages {
    /// The allocator of answers.
    pub alloc: Global,
}

impl Packages {
    /// The predefined units are there, and name only themselves. It does nothing: its contract is the law.
    pub fn are_predefined()
        ensures { ArePredefined predefined_answer }
    {}
}

impl Answers for Packages {
    ghost table = { λ p. predefined_answer };

    fn ask(&self, query: &Query) -> Result<Answer, NoMemory> {
        match query {
            Query::Of {
                unit,
                property: Property::Kind,
            } => {
                let view = own_view(self.alloc, unit)?;
                Answer::new(self.alloc, AnswerKind::Kind(view))
            }
            _ => no_answer(self.alloc, query),
        }
    }
}
