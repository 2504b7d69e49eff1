// The choices of a case statement, one by one.
ghost use Rattle.std.specs.Prelude.{◌≡◌, OnOk};
ghost use Rattle.al_stmts.specs.Cases.{no_alternative, no_choice, with_choice, with_choices};

use crate::Choice;
use al_base::NoMemory;
use al_base_fault::{CheckResult, Fault, earlier};
use al_view::Seq;
use std::alloc::Global;

/// The choices of an alternative so far: the first fault of one, and those that are right.
#[derive(Drop)]
pub struct AlternativeChoices {
    /// The first fault of a choice.
    pub fault: Option<Fault>,
    /// The choices that are right, in source order.
    pub choices: Seq<Choice>,
}

/// The choices of a case statement so far, by alternatives in source order.
#[derive(Drop)]
pub struct CaseChoices {
    /// The first fault of a choice.
    pub fault: Option<Fault>,
    /// The choices that are right, by alternatives.
    pub alternatives: Seq<Seq<Choice>>,
}

impl AlternativeChoices {
    /// No choice yet.
    pub fn new(alloc: Global) -> Self
        ensures { result ≡ no_choice }
    {
        AlternativeChoices {
            fault: None,
            choices: Seq::empty(alloc),
        }
    }

    /// Adds a choice, or its fault.
    /// # Errors
    /// `NoMemory` if the allocator refuses memory.
    pub fn add(&mut self, choice: CheckResult<Choice>) -> Result<(), NoMemory>
        ensures { OnOk result (self.new ≡ with_choice self.old choice) }
    {
        match choice {
            Ok(choice) => self.choices.push(choice)?,
            Err(fault) => self.fault = earlier(self.fault, Some(fault)),
        }
        Ok(())
    }
}

impl CaseChoices {
    /// No alternative yet.
    pub fn new(alloc: Global) -> Self
        ensures { result ≡ no_alternative }
    {
        CaseChoices {
            fault: None,
            alternatives: Seq::empty(alloc),
        }
    }

    /// Adds the choices of the next alternative.
    /// # Errors
    /// `NoMemory` if the allocator refuses memory.
    pub fn add(&mut self, alternative: AlternativeChoices) -> Result<(), NoMemory>
        ensures { OnOk result (self.new ≡ with_choices self.old alternative) }
    {
        self.fault = earlier(self.fault, alternative.fault);
        self.alternatives.push(alternative.choices)?;
        Ok(())
    }
}
