// The predefined units of the small language, as a session's library asks them.
ghost use Rattle.std.specs.Prelude.{◌≡◌};
ghost use Rattle.std.proofs.Common.{refl};
ghost use Rattle.al_engine_refresh.specs.Settings.{ArePredefined};
ghost use Rattle.al_engine_toy.specs.Outcomes.{predefined_answer};

use al_base::NoMemory;
use al_engine_files::FixedAnswers;
use al_engine_toy::Packages;
use al_query::{Answer, Answers, Query};
use std::alloc::Global;

/// The predefined units: packages that declare nothing.
#[derive(Drop)]
pub(crate) struct Predefined {
    packages: Packages,
}

impl Predefined {
    /// The predefined units.
    pub fn new(alloc: Global) -> Self {
        Predefined {
            packages: Packages { alloc },
        }
    }

    /// What a library requires of the predefined units. It does nothing: its contract is the law.
    pub fn are_predefined()
        ensures { ArePredefined predefined_answer }
    {
        Packages::are_predefined();
    }
}

impl Answers for Predefined {
    ghost table = { λ p. predefined_answer };

    fn ask(&self, query: &Query) -> Result<Answer, NoMemory> {
        self.packages.ask(query)
    }
}

impl FixedAnswers for Predefined {
    ghost answers = { predefined_answer };

    ghost alike = { λ one. refl };
}
