// What the check of a unit gives.
ghost use Rattle.std.specs.Prelude.{◌≡◌, IfOk};
ghost use Rattle.al_query_outcome.specs.Results.{checked_model, table_entry};

use crate::interface::{UnitInterface, no_answer};
use al_base::{Diagnostic, NoMemory};
use al_query::{Answer, Query};
use al_view::Seq;
use al_view_typed::TypedUnit;
use std::alloc::Global;

/// What the check of a unit gives.
pub enum Checked {
    /// What is wrong with it: something at least.
    Faulty(Seq<Diagnostic>),
    /// Nothing is: what it answers to others, and its labelled tree.
    Sound(UnitInterface, TypedUnit),
}

impl Drop for Checked {
    fn drop(self) {
        match self {
            Checked::Faulty(_) => {}
            Checked::Sound(_, _) => {}
        }
    }
}

impl Checked {
    /// The answer to a question of the unit.
    ///
    /// # Errors
    ///
    /// `NoMemory` if the allocator refuses memory.
    pub fn answer(&self, alloc: Global, query: &Query) -> Result<Answer, NoMemory>
        ensures { IfOk result (λ answer. answer ≡ table_entry (checked_model self.now) query.now) }
    {
        match self {
            Checked::Faulty(_) => no_answer(alloc, query),
            Checked::Sound(interface, _) => interface.answer(alloc, query),
        }
    }
}
